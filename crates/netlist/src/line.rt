// One line of a netlist at a place: its head, a gate, an output.
ghost use Rattle.std.specs.Prelude.{◌≡◌, ◌+◌, ◌*◌, ◌≤◌, ltb, leb, ◌&&◌, length, take, IfOk};
ghost use Rattle.rules.specs.Basics.{within, ascending};
ghost use Rattle.lines.specs.Line.{words_from};
ghost use Rattle.netlist.specs.Steps.{part, head_in, head_line, HeadFits, operands_line, OperandsFit, gate_line, Sized, output_line};

use crate::Netlist;
use lines::kind::Kind;
use rules::Refusal;

// A head's numbers.
#[derive(Clone, Copy)]
pub(crate) struct Head {
    pub(crate) inputs: usize,
    pub(crate) gates: usize,
    pub(crate) outputs: usize,
}

impl Head {
    // Whether the numbers are within their limits.
    fn fits(&self) -> bool
        ensures { result ≡ (within 1 64 self.now.inputs && within 1 512 self.now.gates && within 1 64 self.now.outputs) }
    {
        (1..=64).contains(&self.inputs)
            && (1..=512).contains(&self.gates)
            && (1..=64).contains(&self.outputs)
    }
}

// The netlist's head: 1, 2, 3.
#[tactic(auto, using(crate::proofs::HeadLine::head_rules))]
pub(crate) fn read_head(text: &[u8]) -> Result<Head, Refusal>
    ensures means { part text.now head_in (λ _. 11) result ≡ head_line text.now }
    ensures fits { IfOk result (HeadFits text.now) }
{
    let l = lines::read_line(text, 0);
    let Ok(n) = l else {
        return Err(l.unwrap_err());
    };
    if lines::byte_at(text, 0) != Kind::Netlist as usize || n != 10 {
        return Err(Refusal::WrongFrame);
    }
    let head = Head {
        inputs: lines::byte_at(text, 2),
        gates: lines::word_at(text, 4),
        outputs: lines::byte_at(text, 8),
    };
    if !head.fits() {
        return Err(Refusal::HeadNumber);
    }
    Ok(head)
}

// How many operands a gate's line names: 1, 2.
#[tactic(auto, using(crate::proofs::OneLine::operand_rules))]
fn operands(text: &[u8], at: usize) -> Result<usize, Refusal>
    ensures means { part text.now (words_from text.now (at + 2)) (λ k. at + 4 * k + 3) result ≡ operands_line text.now at }
    ensures fits { IfOk result (OperandsFit text.now at) }
{
    let l = lines::read_line(text, at);
    let Ok(n) = l else {
        return l;
    };
    if lines::byte_at(text, at) != Kind::Gate as usize || n % 4 != 2 || n < 6 || 18 < n {
        return Err(Refusal::WrongFrame);
    }
    Ok(n / 4)
}

// The words from a place of the text on, one for each operand.
#[tactic(auto, using(lines::proofs::Laws::word_small, crate::proofs::OneLine::words_stand))]
fn store(text: &[u8], at: usize, os: &mut [u16])
    requires { at + 4 * length os.old ≤ length text.now }
    ensures { os.new ≡ words_from text.now at (length os.old) }
{
    for (k, o) in os.iter_mut().enumerate() {
        *o = lines::word_at(text, at + 4 * k) as u16;
    }
}

// Whether a gate's operands ascend strictly.
fn ascend(os: &[u16]) -> bool
    ensures { result ≡ ascending os.now }
{
    os.is_sorted_by(|a, b| a < b)
}

// The line of the gate that is the signal own: its operands at the front of their room, its answer their number; 1, 2, 4, 5.
#[tactic(auto, using(crate::proofs::OneGate::gate_none, crate::proofs::OneGate::gate_good))]
pub(crate) fn read_gate(
    text: &[u8],
    at: usize,
    own: usize,
    room: &mut [u16],
) -> Result<usize, Refusal>
    requires { length room.old ≡ 4 }
    ensures means { part text.now (λ k. take k room.new) (λ k. at + 4 * k + 3) result ≡ gate_line text.now at own }
    ensures fits { IfOk result (OperandsFit text.now at) }
{
    let named = operands(text, at);
    let Ok(k) = named else {
        return named;
    };
    let os = &mut room[..k];
    store(text, at + 2, os);
    if !slices::all_below(os, own) {
        return Err(Refusal::WrongSignal);
    }
    if !ascend(os) {
        return Err(Refusal::NotAscending);
    }
    Ok(k)
}

// Whether a signal is a gate.
fn is_gate(n: &Netlist, s: usize) -> bool
    requires { Sized n.now }
    ensures { result ≡ (leb n.now.inputs s && ltb s (n.now.inputs + n.now.gates)) }
{
    (n.inputs..n.inputs + n.gates).contains(&s)
}

// An output's line, by the netlist's inputs and gates: its answer is the signal; 1, 2, 4.
#[tactic(auto, using(crate::proofs::OutputLine::output_rules))]
pub(crate) fn read_output(text: &[u8], at: usize, n: &Netlist) -> Result<u16, Refusal>
    requires { Sized n.now }
    ensures means { part text.now (λ s. s) (λ _. at + 7) result ≡ output_line text.now at n.now }
    ensures fits { IfOk result (λ _. at + 7 ≤ length text.now) }
{
    let l = lines::read_line(text, at);
    let Ok(digits) = l else {
        return Err(l.unwrap_err());
    };
    if lines::byte_at(text, at) != Kind::Output as usize || digits != 6 {
        return Err(Refusal::WrongFrame);
    }
    let s = lines::word_at(text, at + 2);
    if !is_gate(n, s) {
        return Err(Refusal::WrongSignal);
    }
    Ok(s as u16)
}
