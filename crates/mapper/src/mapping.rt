// Mapping: the gates executed in order, from the opening on.
ghost use Rattle.std.specs.Prelude.{Result};
ghost use Rattle.mapper.specs.Run.{Placeable, Placed, Runnable, RunOf};

use crate::cells::{Cells, Hold};
use crate::signals::{Signals, count_down};
use crate::text::Text;
use netlist::Netlist;
use rules::Refusal;
use slices::put;

impl Cells {
    // Signal s in the cell at the cursor: its NOR line, its cell, and its operands that nobody wants any more released.
    fn place(mut self, n: &Netlist, s: usize, signals: &mut Signals, text: &mut Text) -> Cells
        requires { Placeable n.now s self signals.old text.old }
        ensures { Placed n.now s self signals.old text.old result signals.new text.new }
    {
        let operands = n.operands(s - n.inputs);
        let c = self.next as u8;
        text.nor(c, &signals.table, operands);
        count_down(&mut signals.left, operands);
        self.held[self.next] = Hold::Keeps;
        self.lines += 1;
        let cells = self.release(operands, signals);
        signals.forget(operands);
        put(&mut signals.table, s, c);
        cells
    }

    // The gates in their order, after a line that sets all work cells; 9 where no cell is left for one.
    pub(crate) fn run(
        self,
        n: &Netlist,
        order: &[u16],
        signals: &mut Signals,
        text: &mut Text,
    ) -> Result<Cells, Refusal>
        requires { Runnable n.now self.row order.now self signals.old text.old }
        ensures { RunOf n.now self.row order.now signals.new text.new result }
    {
        let mut cells = self.set_spent(text);
        for &s in order {
            let Some(found) = cells.with_room(text) else {
                return Err(Refusal::NoRoom);
            };
            cells = found.place(n, usize::from(s), signals, text);
        }
        Ok(cells)
    }
}
