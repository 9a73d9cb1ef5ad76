// Instruction by instruction, up to the first that is refused.
ghost use Rattle.std.specs.Prelude.{◌≡◌};
ghost use Rattle.rules.specs.Refusals.{meaning_by};
ghost use Rattle.rules.specs.Book.{steps};
ghost use Rattle.instruction.specs.Line.{instructions_at};
ghost use Rattle.netlist.specs.Flat.{netlist_in};
ghost use Rattle.book.specs.Cells.{book_in};

use crate::gates::Gates;
use book::Book;
use rules::Refusal;

// The instructions whose lines begin at a place of the text, so many of them.
#[tactic(auto, using(crate::proofs::Working::inside, crate::proofs::Working::worked_start, crate::proofs::Working::worked_stop, crate::proofs::Working::worked_end))]
pub(crate) fn worked(
    book: &mut Book,
    text: &[u8],
    code: usize,
    count: usize,
    gates: &Gates<'_>,
) -> Result<(), Refusal>
    requires { book.old.inputs ≡ gates.now.netlist.now.inputs }
    ensures { meaning_by (λ _. book_in book.new) result ≡ steps (netlist_in gates.now.netlist.now) (instructions_at text.now code count) (book_in book.old) }
{
    let mut at = code;
    for _done in 0..count {
        let i = instruction::instruction_at(text, at);
        let gate = gates.made_by(book, text, i);
        book.step(text, i, gate)?;
        at = i.next;
    }
    Ok(())
}
