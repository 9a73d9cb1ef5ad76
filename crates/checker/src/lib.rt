// The checker of sequences from any producer: `check` over two texts, and the checking program over one.
#![tactic(auto)]

ghost use Rattle.std.specs.Prelude.{◌≡◌, length};
ghost use Rattle.std.proofs.lemmas.List.Edits.{sets};
ghost use Rattle.rules.specs.Form.{form01};
ghost use Rattle.rules.specs.Refusals.{meaning};
ghost use Rattle.rules.specs.Programs.{checking_answer};
ghost use Rattle.rules.specs.Calls.{check_outcome, rowcheck_output};

use rules::Refusal;

mod gates;
mod judge;
mod operands;
mod places;
mod print;
mod work;

// Netlist, sequence text (1, 2, 3, 5, 12), 11, then instruction by instruction 13, 14, 15, then 16. Passed answers the number of instructions.
#[tactic(auto, using(crate::proofs::Calling::check_refused, crate::proofs::Calling::check_judged, netlist::proofs::FlatWell::read_well))]
pub fn check(netlist: &[u8], sequence: &[u8]) -> Result<usize, Refusal>
    ensures { meaning result ≡ check_outcome netlist.now sequence.now }
{
    let n = netlist::read(netlist)?;
    judge::judged(&n, sequence)
}

// The same of one text: a netlist, and the rest of the text, from the middle on, is read as the sequence.
#[tactic(auto, using(crate::proofs::Calling::after_refused, crate::proofs::Calling::after_judged, netlist::proofs::FlatWell::front_well))]
pub fn check_after(input: &[u8]) -> Result<usize, Refusal>
    ensures { meaning result ≡ checking_answer form01 input.now }
{
    let front = netlist::read_front(input)?;
    judge::judged(&front.netlist, slices::rest(input, front.tail))
}

// The checking program: what it prints fills the first bytes of the lent buffer, and the answer is its length. A longer input than 65,536 bytes prints 1F01.
#[tactic(auto, using(crate::proofs::Calling::refusal_long, crate::proofs::Calling::cycles_long, crate::proofs::Calling::output_long, crate::proofs::Calling::output_passed, crate::proofs::Calling::cycles_fit))]
pub fn program(input: &[u8], out: &mut [u8]) -> usize
    ensures { (result ≡ length (rowcheck_output input.now)) × (out.new ≡ sets out.old 0 (rowcheck_output input.now)) }
{
    if 65536 < input.len() {
        lines::write::put_refusal(out, Refusal::BadLine);
        return 5;
    }
    match check_after(input) {
        Ok(n) => {
            print::cycles(out, n);
            7
        }
        Err(r) => {
            lines::write::put_refusal(out, r);
            5
        }
    }
}
