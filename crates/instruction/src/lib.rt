// An instruction where it stands in a text, for whoever takes a sequence's instructions one by one.
#![tactic(auto)]

ghost use Rattle.std.specs.Prelude.{◌≡◌, ◌+◌, ◌*◌, ◌≤◌, length};
ghost use Rattle.row.specs.Decoded.{cells_from};
ghost use Rattle.instruction.specs.Line.{instruction_at, idle_at};

use lines::kind::Kind;

// A set line or else a NOR line, two kinds for which a bool will do; where its first cell's digits stand, how many cells it names, and where the next line begins.
#[derive(Clone, Copy)]
pub struct Instruction {
    pub set: bool,
    pub first: usize,
    pub cells: usize,
    pub next: usize,
}

// How many cells a line names from a place on.
fn count(text: &[u8], first: usize) -> usize
    requires { first ≤ length text.now + 1 }
    ensures { (result ≡ length (cells_from text.now first)) × (first + 2 * result ≤ length text.now + 1) }
{
    for k in 0..text.len() {
        if row::cell_at(text, first + 2 * k).is_none() {
            return k;
        }
    }
    text.len()
}

// A line that names no cell does nothing.
fn idle(next: usize) -> Instruction
    ensures { result ≡ idle_at next }
{
    Instruction {
        set: true,
        first: 0,
        cells: 0,
        next,
    }
}

// The instruction whose line begins at a place. Cell k of it stands at first + 2 k.
pub fn instruction_at(text: &[u8], at: usize) -> Instruction
    ensures { result ≡ instruction_at text.now at }
{
    if text.len() <= at {
        return idle(at);
    }
    let first = at + 2;
    let cells = count(text, first);
    if cells == 0 {
        return idle(at + 3);
    }
    Instruction {
        set: lines::byte_at(text, at) == Kind::Set as usize,
        first,
        cells,
        next: first + 2 * cells + 1,
    }
}
