// The row: what one instruction does to it, and a run of so many cycles.
ghost use Rattle.std.specs.Prelude.{◌≡◌};
ghost use Rattle.rules.specs.Basics.{set_all};
ghost use Rattle.rules.specs.Device.{execute};
ghost use Rattle.row.specs.Decoded.{cells_from, end_from, nor_on, instruction_at, next_at};
ghost use Rattle.row.specs.Runs.{operands_at, run_at};

use lines::kind::Kind;

// What the operands of a NOR give, and where they end.
#[derive(Clone, Copy)]
struct Operands {
    value: u8,
    end: usize,
}

// A line's cells are asked one by one up to its end: counted first, and taken as a slice, they cost a run more time.

// Set puts 1 in each cell named from a place on. The answer is where they end.
#[tactic(auto, using(crate::proofs::Decoding::cell_within))]
fn set_cells(text: &[u8], first: usize, row: &mut [u8]) -> usize
    ensures { (result ≡ end_from text.now first) × (row.new ≡ set_all 1 (cells_from text.now first) row.old) }
{
    let mut at = first;
    while let Some(c) = crate::cell_at(text, at) {
        slices::put(row, c, 1);
        at += 2;
    }
    at
}

// 1 when all operand cells from a place on are 0.
#[tactic(auto, using(crate::proofs::Decoding::cell_within))]
fn nor(text: &[u8], first: usize, row: &[u8]) -> Operands
    ensures { result ≡ operands_at text.now first row.now }
{
    let mut value = 1;
    let mut at = first;
    while let Some(c) = crate::cell_at(text, at) {
        if slices::at(row, c, 0) != 0 {
            value = 0;
        }
        at += 2;
    }
    Operands { value, end: at }
}

// NOR leaves 1 in the written cell, the first, only where it held 1 before and all operands are 0. The answer is where the cells end.
#[tactic(auto, using(crate::proofs::Decoding::cell_within))]
fn nor_cells(text: &[u8], first: usize, row: &mut [u8]) -> usize
    ensures { (result ≡ end_from text.now first) × (row.new ≡ execute (nor_on (cells_from text.now first)) row.old) }
{
    let Some(w) = crate::cell_at(text, first) else {
        return first;
    };
    let o = nor(text, first + 2, row);
    let v = if slices::at(row, w, 0) == 1 {
        o.value
    } else {
        0
    };
    slices::put(row, w, v);
    o.end
}

// One cycle: the instruction at a place works on the row. The answer is the place of the next line.
#[tactic(auto, using(crate::proofs::Running::end_fits))]
fn step(text: &[u8], at: usize, row: &mut [u8]) -> usize
    ensures { (result ≡ next_at text.now at) × (row.new ≡ execute (instruction_at text.now at) row.old) }
{
    if text.len() <= at {
        return at;
    }
    if lines::byte_at(text, at) == Kind::Set as usize {
        return set_cells(text, at + 2, row) + 1;
    }
    nor_cells(text, at + 2, row) + 1
}

// So many cycles from a place on.
pub(crate) fn run(text: &[u8], code: usize, row: &mut [u8], cycles: usize)
    ensures { row.new ≡ run_at text.now code cycles row.old }
{
    let mut at = code;
    for _cycle in 0..cycles {
        at = step(text, at, row);
    }
}
