// A sequence against a netlist that was read.
ghost use Rattle.std.specs.Prelude.{◌≡◌};
ghost use Rattle.rules.specs.Refusals.{meaning};
ghost use Rattle.rules.specs.Book.{checked};
ghost use Rattle.netlist.specs.Flat.{netlist_in};
ghost use Rattle.netlist.specs.Well.{Well};
ghost use Rattle.row.specs.Decoded.{sequence_at};
ghost use Rattle.checker.specs.Judged.{Agreed, judged_of};

use crate::gates::Gates;
use crate::{places, work};
use book::Book;
use netlist::Netlist;
use row::Head;
use rules::Refusal;

// Where the heads agree: instruction by instruction 13, 14, 15, then 16. Passed answers the number of instructions.
fn followed(n: &Netlist, text: &[u8], h: Head) -> Result<usize, Refusal>
    requires { Agreed n.now text.now h }
    ensures { meaning result ≡ checked (netlist_in n.now) (sequence_at text.now h) }
{
    let gates = Gates::of(n);
    let mut book = Book::first(h.row, n.inputs);
    work::worked(&mut book, text, h.code, h.instructions, &gates)?;
    if !places::hold(&book, text, h.places, n.output_list()) {
        return Err(Refusal::Misplaced);
    }
    Ok(h.instructions)
}

// The sequence's text (1, 2, 3, 5, 12), then 11 where the heads disagree, then the rest.
#[tactic(auto, using(crate::proofs::Answering::judge_refused, crate::proofs::Answering::judge_inputs, crate::proofs::Answering::judge_outputs, crate::proofs::Answering::judge_agreed, crate::proofs::Answering::judge_followed))]
pub(crate) fn judged(n: &Netlist, text: &[u8]) -> Result<usize, Refusal>
    requires { Well (netlist_in n.now) }
    ensures { meaning result ≡ judged_of (netlist_in n.now) text.now }
{
    let h = row::read(text)?;
    if h.inputs != n.inputs || h.outputs != n.outputs {
        return Err(Refusal::HeadsDisagree);
    }
    followed(n, text, h)
}
