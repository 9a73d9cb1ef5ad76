// Sequences and the row: one pass reads a whole text and checks it; afterwards instructions are decoded from the text as they run.
#![tactic(auto)]

ghost use Rattle.std.specs.Prelude.{◌≡◌};
ghost use Rattle.rules.specs.Form.{form01};
ghost use Rattle.rules.specs.Sequence.{sequence_of};
ghost use Rattle.rules.specs.Calls.{outcome_of, simulate_outcome};
ghost use Rattle.row.specs.Decoded.{cell_at, sequence_in};

use rules::Refusal;

mod cells;
mod device;
mod frames;

// A sequence that was read: its numbers, where its first instruction's line begins, and where its first place's line begins.
#[derive(Clone, Copy)]
pub struct Head {
    pub row: usize,
    pub inputs: usize,
    pub outputs: usize,
    pub instructions: usize,
    pub code: usize,
    pub places: usize,
}

// The cell whose digits stand at a place, up to the line's end: cells stand two digits each from the place after the line's kind on.
pub fn cell_at(text: &[u8], at: usize) -> Option<usize>
    ensures { result ≡ cell_at text.now at }
{
    if text.len() <= at || text.len() - at < 2 || text[at] == b'\n' {
        return None;
    }
    Some(lines::byte_at(text, at))
}

// The sequence reader.
pub fn read(text: &[u8]) -> Result<Head, Refusal>
    ensures { sequence_in text.now result ≡ sequence_of form01 text.now }
{
    let l = frames::head_line(text);
    let Ok(head) = l else {
        return Err(l.unwrap_err());
    };
    let places = frames::each_line(
        |at| frames::instruction_line(text, at, head.row),
        frames::CODE,
        head.instructions,
    )?;
    let end = frames::each_line(
        |at| frames::place_line(text, at, head.row),
        places,
        head.outputs,
    )?;
    lines::ends(text, end)?;
    Ok(Head {
        row: head.row,
        inputs: head.inputs,
        outputs: head.outputs,
        instructions: head.instructions,
        code: frames::CODE,
        places,
    })
}

// The simulator: the answer is the number of cycles run, the smaller of the budget and the instruction count, and the row is the row after exactly those.
pub fn simulate(text: &[u8], row: &mut [u8], budget: usize) -> Result<usize, Refusal>
    ensures { outcome_of result row.new ≡ simulate_outcome text.now row.old budget }
{
    let head = read(text)?;
    if !slices::are_bits(row, head.row) {
        return Err(Refusal::NotBits);
    }
    let cycles = budget.min(head.instructions);
    device::run(text, head.code, row, cycles);
    Ok(cycles)
}
