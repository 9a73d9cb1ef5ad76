// The public calls for C, C++ and Rust: numbers and byte slices only. A slice is a pointer and then a length.
// An answer is one 64-bit number: its value, or minus the refusal's number.
#![tactic(auto)]

ghost use Rattle.std.specs.Prelude.{◌≡◌, ◌-◌, ◌%◌, ◌^◌, length};
ghost use Rattle.rules.specs.Refusals.{meaning, number_of};
ghost use Rattle.rules.specs.Calls.{map_outcome, evaluate_outcome, check_outcome, simulate_outcome, tail_outcome, frame_outcome, place_outcome};
ghost use Rattle.calls.specs.Coded.{coded, read_answer};

use rules::Refusal;

// A refusal as one number: minus its own, as a 64-bit machine has it.
fn minus(r: Refusal) -> u64
    ensures { result ≡ (2 ^ 64 - number_of r) % 2 ^ 64 }
{
    u64::from(r.number()).wrapping_neg()
}

// An answer as one number.
#[tactic(auto, using(crate::proofs::Laws::value_coded))]
fn code(a: Result<usize, Refusal>) -> u64
    ensures { result ≡ coded (meaning a) }
{
    match a {
        Ok(n) => n as u64,
        Err(r) => minus(r),
    }
}

// read: 0 where a netlist reads well, or the refusal.
#[unsafe(no_mangle)]
pub extern "C" fn bhedhmurali_read(text: &[u8]) -> u64
    ensures { result ≡ coded (read_answer text.now) }
{
    match netlist::read(text) {
        Ok(_) => 0,
        Err(r) => minus(r),
    }
}

// map: a netlist's text to a sequence's text for a row. The answer is the text's length.
#[unsafe(no_mangle)]
pub extern "C" fn bhedhmurali_map(row: usize, text: &[u8], out: &mut [u8]) -> u64
    ensures { (result ≡ coded (map_outcome row text.now out.old).answer)
        × (out.new ≡ (map_outcome row text.now out.old).lent) }
{
    code(mapper::map(row, text, out))
}

// check: a sequence against a netlist. The answer is the number of instructions where it passes.
#[unsafe(no_mangle)]
pub extern "C" fn bhedhmurali_check(netlist: &[u8], sequence: &[u8]) -> u64
    ensures { result ≡ coded (check_outcome netlist.now sequence.now) }
{
    code(checker::check(netlist, sequence))
}

// evaluate: a netlist's outputs for its inputs. The answer is their number.
#[unsafe(no_mangle)]
pub extern "C" fn bhedhmurali_evaluate(text: &[u8], inputs: &[u8], out: &mut [u8]) -> u64
    ensures { (result ≡ coded (evaluate_outcome text.now inputs.now out.old).answer)
        × (out.new ≡ (evaluate_outcome text.now inputs.now out.old).lent) }
{
    code(evaluator::evaluate(text, inputs, out))
}

// tail: where the part of the text that follows the netlist's last output line begins.
#[unsafe(no_mangle)]
pub extern "C" fn bhedhmurali_tail(text: &[u8]) -> usize
    ensures { result ≡ length text.now - length (tail_outcome text.now) }
{
    text.len().saturating_sub(netlist::tail(text).len())
}

// How many digits the frame at a place of a text has, 0 where none stands.
#[tactic(auto, unfolding(frames::specs::Reader::piece_at))]
#[unsafe(no_mangle)]
pub extern "C" fn bhedhmurali_frame(text: &[u8], at: usize) -> usize
    ensures { result ≡ length (frame_outcome text.now at) }
{
    frames::piece_at(text, at).width
}

// The place after the frame at a place; the same place where none stands.
#[tactic(auto, unfolding(frames::specs::Reader::piece_at))]
#[unsafe(no_mangle)]
pub extern "C" fn bhedhmurali_next(text: &[u8], at: usize) -> usize
    ensures { result ≡ place_outcome text.now at }
{
    frames::piece_at(text, at).next
}

// simulate: a sequence on a row under a budget. The answer is the cycles run.
#[unsafe(no_mangle)]
pub extern "C" fn bhedhmurali_simulate(text: &[u8], row: &mut [u8], budget: usize) -> u64
    ensures { (result ≡ coded (simulate_outcome text.now row.old budget).answer)
        × (row.new ≡ (simulate_outcome text.now row.old budget).lent) }
{
    code(row::simulate(text, row, budget))
}
