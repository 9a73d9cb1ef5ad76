// At the end each place holds its output.
ghost use Rattle.std.specs.Prelude.{◌≡◌, ◌≤◌, length};
ghost use Rattle.rules.specs.Book.{placed};
ghost use Rattle.row.specs.Decoded.{places_at};
ghost use Rattle.book.specs.Cells.{book_in};

use book::{Book, Cell};

// Whether the places whose lines begin at a place of the text, so many as outputs, hold these. Past the text's end every place is cell 0.
#[tactic(auto, using(crate::proofs::Placing::held_start, crate::proofs::Placing::held_turn, crate::proofs::Placing::held_stop, crate::proofs::Placing::held_end))]
pub(crate) fn hold(book: &Book, text: &[u8], places: usize, outs: &[u16]) -> bool
    requires { length outs.now ≤ 64 }
    ensures { result ≡ placed (book_in book.now) (places_at text.now places (length outs.now)) outs.now }
{
    for (j, &o) in outs.iter().enumerate() {
        let at = places.saturating_add(5 * j + 2);
        if book.cell(book::cell_at(text, at)) != Cell::Holds(o) {
            return false;
        }
    }
    true
}
