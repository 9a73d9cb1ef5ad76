// The operand signals of a NOR line, read from the book, and the key of the gate that has them.
ghost use Rattle.std.specs.Prelude.{◌≡◌, map, ◌+◌, ◌-◌, ◌*◌, ◌≤◌, length};
ghost use Rattle.rules.specs.Basics.{sort};
ghost use Rattle.rules.specs.Book.{signals};
ghost use Rattle.lines.specs.Line.{bytes_from};
ghost use Rattle.index.specs.Chains.{key_of};
ghost use Rattle.book.specs.Cells.{book_in};
ghost use Rattle.checker.specs.Operands.{key_over, low_cell};

use book::{Book, Cell};
use instruction::Instruction;

// The key of signals put in order.
fn ordered_key(signals: &mut [u16]) -> u64
    ensures { result ≡ key_of (sort signals.old) }
{
    signals.sort_unstable();
    index::key(signals)
}

// The key of a NOR line's operand signals; none if an operand cell holds no signal.
// A signal past 1023 is no netlist's, so its cell counts as one that holds none.
#[tactic(auto, using(crate::proofs::Gathering::gathered_none, crate::proofs::Gathering::gathered_end))]
pub(crate) fn key(book: &Book, text: &[u8], i: Instruction) -> Option<u64>
    requires { (1 ≤ i.cells) × (i.cells ≤ 5) × (i.first + 2 * i.cells ≤ length text.now) }
    ensures { result ≡ key_over (signals (map low_cell (book_in book.now)) (bytes_from text.now (i.first + 2) (i.cells - 1))) }
{
    let mut four = [0; 4];
    for j in 1..i.cells {
        let Cell::Holds(s @ ..=1023) = book.cell(book::cell_at(text, i.first + 2 * j)) else {
            return None;
        };
        four[j - 1] = s;
    }
    Some(ordered_key(&mut four[..i.cells - 1]))
}
