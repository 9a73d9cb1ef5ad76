// The checker's book of cells: what is known of each cell of a row, and what one instruction makes of it.
#![tactic(auto)]

ghost use Rattle.std.specs.Prelude.{[], None, ◌≡◌, get_or, take, set};
ghost use Rattle.rules.specs.Basics.{set_all};
ghost use Rattle.rules.specs.Sequence.{Set, Nor};
ghost use Rattle.rules.specs.Book.{ready};
ghost use Rattle.lines.specs.Line.{byte_at, bytes_from};
ghost use Rattle.book.specs.declared.Cell.TheVariants.{Unknown};
ghost use Rattle.book.specs.Cells.{cell_in, book_in, book_of, first_of};
ghost use Rattle.book.specs.Steps.{gate_in, step_with, stepped_of, Handed, Stepped};

use cells::Cells;
use instruction::Instruction;
use rules::Refusal;

mod cells;

// What is known of a cell: nothing, that it is ready, or the signal that it holds.
#[derive(Clone, Copy, Debug, PartialEq, Eq)]
pub enum Cell {
    Unknown,
    Ready,
    Holds(u16),
}

// What is known of the cells of a row whose first cells hold the inputs.
#[derive(Clone, Copy)]
pub struct Book {
    pub row: usize,
    pub inputs: usize,
    pub cells: [Cell; 256],
}

// The cell whose digits stand at a place.
#[tactic(auto, using(lines::proofs::Laws::byte_read))]
pub fn cell_at(text: &[u8], at: usize) -> u8
    ensures { result ≡ byte_at text.now at }
{
    lines::byte_at(text, at) as u8
}

impl Book {
    // At first input cells hold their signals, all others are unknown.
    pub fn first(row: usize, inputs: usize) -> Book
        ensures { result ≡ first_of row inputs }
    {
        let mut cells = [Cell::Unknown; 256];
        for s in 0..inputs.min(256) {
            cells[s] = Cell::Holds(s as u16);
        }
        Book { row, inputs, cells }
    }

    // What is known of a cell; nothing past the row's end.
    pub fn cell(&self, c: u8) -> Cell
        ensures { result ≡ get_or (take self.now.row self.now.cells) c Unknown }
    {
        if usize::from(c) < self.row {
            self.cells[usize::from(c)]
        } else {
            Cell::Unknown
        }
    }

    // One cell of the row altered.
    #[tactic(auto, using(crate::proofs::Laws::put_in, crate::proofs::Laws::put_past))]
    fn put(&mut self, c: u8, v: Cell)
        ensures { self.new ≡ book_of self.old (set (book_in self.old) c (cell_in v)) }
    {
        let i = usize::from(c);
        if i < self.row {
            self.cells[i] = v;
        }
    }

    // All cells of a line become ready.
    #[tactic(auto, using(crate::proofs::Laws::readied_start, crate::proofs::Laws::readied_turn))]
    fn make_ready(&mut self, cells: &Cells<'_>)
        ensures { self.new ≡ book_of self.old (set_all ready (bytes_from cells.now.text.now cells.now.first cells.now.count) (book_in self.old)) }
    {
        for j in 0..cells.count {
            self.put(cells.cell(j), Cell::Ready);
        }
    }

    // A set line.
    #[tactic(auto, using(crate::proofs::Judging::set_refused))]
    fn set(&mut self, cells: &Cells<'_>) -> Result<(), Refusal>
        ensures { Stepped self.old (step_with self.old.inputs (gate_in None) (Set (bytes_from cells.now.text.now cells.now.first cells.now.count)) (book_in self.old)) result self.new }
    {
        if cells.any_below(self.inputs) {
            return Err(Refusal::InputWritten);
        }
        self.make_ready(cells);
        Ok(())
    }

    // A NOR line that writes a cell and makes a gate, if its operands are one's.
    #[tactic(auto, using(crate::proofs::Judging::nor_written, crate::proofs::Judging::nor_unready, crate::proofs::Judging::nor_none))]
    fn nor(&mut self, w: u8, gate: Option<u16>) -> Result<(), Refusal>
        ensures { Stepped self.old (step_with self.old.inputs (gate_in gate) (Nor w []) (book_in self.old)) result self.new }
    {
        if usize::from(w) < self.inputs {
            return Err(Refusal::InputWritten);
        }
        if self.cell(w) != Cell::Ready {
            return Err(Refusal::NotReady);
        }
        let Some(s) = gate else {
            return Err(Refusal::NoGate);
        };
        self.put(w, Cell::Holds(s));
        Ok(())
    }

    // One instruction by value, with the gate that it makes: the lines are lent the book that it owns.
    #[tactic(auto, using(crate::proofs::Judging::set_handed, crate::proofs::Judging::set_dropped, crate::proofs::Judging::nor_handed, crate::proofs::Judging::nor_dropped))]
    pub fn stepped(
        mut self,
        text: &[u8],
        i: Instruction,
        gate: Option<u16>,
    ) -> Result<Book, Refusal>
        ensures { Handed self (stepped_of self text.now i (gate_in gate)) result }
    {
        // The book is handed back at one place: at two, the compiler clears a book that it then writes whole.
        let told = if i.set {
            self.set(&Cells::standing(text, i))
        } else {
            self.nor(cell_at(text, i.first), gate)
        };
        told?;
        Ok(self)
    }

    // One instruction alters the lent book. A refused one leaves it.
    #[tactic(auto, using(crate::proofs::Judging::lent_passed, crate::proofs::Judging::lent_refused))]
    pub fn step(&mut self, text: &[u8], i: Instruction, gate: Option<u16>) -> Result<(), Refusal>
        ensures { Stepped self.old (stepped_of self.old text.now i (gate_in gate)) result self.new }
    {
        *self = self.stepped(text, i, gate)?;
        Ok(())
    }
}
