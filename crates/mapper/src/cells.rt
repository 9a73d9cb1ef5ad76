// The row's cells while a netlist is mapped: which are ready, which are spent, and the set lines that renew the spent ones.
ghost use Rattle.std.specs.Prelude.{◌≡◌, ◌≤◌, Option};
ghost use Rattle.mapper.specs.Held.{first_cells, Fine, Short, SoughtOf, Renewed, Roomed};
ghost use Rattle.mapper.specs.Run.{Released};

use crate::signals::Signals;
use crate::text::Text;
use lines::kind::Kind;
use slices::at;

// What is known of a cell: it keeps a signal, or is ready, or spent.
#[derive(Clone, Copy, Debug, PartialEq, Eq)]
pub enum Hold {
    Keeps,
    Ready,
    Spent,
}

// The mapping state, which passes from one gate to the next as a value.
// No cell of the row below next, the cursor, is ready. So many lines are written.
#[derive(Clone, Copy)]
pub struct Cells {
    pub held: [Hold; 256],
    pub row: usize,
    pub next: usize,
    pub lines: usize,
}

impl Cells {
    // Before the first line cell i below the inputs keeps input i, and every work cell is spent: the first set line names them all.
    pub(crate) fn first(inputs: usize, row: usize) -> Cells
        requires { inputs ≤ 256 }
        ensures { result ≡ first_cells inputs row }
    {
        let mut held = [Hold::Spent; 256];
        held[..inputs].fill(Hold::Keeps);
        Cells {
            held,
            row,
            next: 0,
            lines: 0,
        }
    }

    // The cursor at the lowest ready cell, if there is one.
    fn seek(mut self) -> Option<Cells>
        requires { Fine self }
        ensures { SoughtOf self result }
    {
        for c in self.next..self.row {
            if self.held[c] == Hold::Ready {
                self.next = c;
                return Some(self);
            }
        }
        None
    }

    // One set line naming all spent cells ascending; they become ready.
    pub(crate) fn set_spent(mut self, text: &mut Text) -> Cells
        requires { Short self text.old }
        ensures { Renewed self text.old text.new result }
    {
        text.byte(Kind::Set as u8);
        for c in 0..self.row {
            if self.held[c] == Hold::Spent {
                text.byte(c as u8);
                self.held[c] = Hold::Ready;
            }
        }
        text.feed();
        self.next = 0;
        self.lines += 1;
        self
    }

    // The cursor at a cell for the next gate, after one set line where none is ready; none where none is spent either.
    pub(crate) fn with_room(self, text: &mut Text) -> Option<Cells>
        requires { Fine self × Short self text.old }
        ensures { Roomed self text.old text.new result }
    {
        if let Some(found) = self.seek() {
            return Some(found);
        }
        self.set_spent(text).seek()
    }

    // The cells of those operands that nobody wants are spent.
    pub(crate) fn release(mut self, operands: &[u16], signals: &Signals) -> Cells
        ensures { Released operands.now signals.now self result }
    {
        for &o in operands {
            if signals.is_free(o) {
                let c = at(&signals.table, usize::from(o), 0);
                self.held[usize::from(c)] = Hold::Spent;
            }
        }
        self
    }
}
