// What is known of each signal while a netlist is mapped: its cell, and how many still want it.
ghost use Rattle.std.specs.Prelude.{◌≡◌, ◌≤◌};
ghost use Rattle.mapper.specs.Held.{is_free};
ghost use Rattle.mapper.specs.Wanted.{Counted, CountedDown};
ghost use Rattle.mapper.specs.Run.{Seated, Forgotten};

use slices::{at, put};

// Each operand is wanted once less.
pub(crate) fn count_down(left: &mut [u16], operands: &[u16])
    requires { Counted operands.now left.old }
    ensures { CountedDown operands.now left.old left.new }
{
    for &o in operands {
        let wanted = at(left, usize::from(o), 0);
        put(left, usize::from(o), wanted - 1);
    }
}

// How many inputs there are, each signal's cell, 0 where none keeps it, and how many still want each signal: lent, for its size.
#[derive(Drop)]
pub struct Signals {
    pub inputs: usize,
    pub table: [u8; 576],
    pub left: [u16; 576],
}

impl Signals {
    // Input i is in cell i.
    pub(crate) fn first(inputs: usize, left: &[u16; 576]) -> Signals
        requires { inputs ≤ 64 }
        ensures { Seated inputs left.now result }
    {
        let mut table = [0; 576];
        for i in 0..inputs {
            table[i] = i as u8;
        }
        Signals {
            inputs,
            table,
            left: *left,
        }
    }

    // Whether a signal is a gate that nobody wants.
    pub(crate) fn is_free(&self, o: u16) -> bool
        ensures { result ≡ is_free self.now.inputs self.now.left o }
    {
        self.inputs <= usize::from(o) && at(&self.left, usize::from(o), 0) == 0
    }

    // Operands that nobody wants have no cell any more.
    pub(crate) fn forget(&mut self, operands: &[u16])
        ensures { Forgotten operands.now self.old self.new }
    {
        for &o in operands {
            if self.is_free(o) {
                put(&mut self.table, usize::from(o), 0);
            }
        }
    }
}
