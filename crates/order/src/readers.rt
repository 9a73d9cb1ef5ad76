// Readers: how many still want each signal.
ghost use Rattle.std.specs.Prelude.{◌≤◌, length};
ghost use Rattle.order.specs.Plan.{Fits};
ghost use Rattle.order.specs.Tables.{Light};
ghost use Rattle.order.specs.Wanted.{Placed, CountedUp, Readers};

use netlist::Netlist;

// Each signal of a list is wanted once more. The mapper counts down: one statement too, of the opposite facts.
pub(crate) fn count_up(list: &[u16], left: &mut [u16; 576])
    requires few { length list.now ≤ 64 }
    requires light { Light left.old 4000 }
    requires placed { Placed list.now left.old }
    ensures { CountedUp list.now left.old left.new }
{
    for &o in list {
        left[usize::from(o)] += 1;
    }
}

// Every gate's operands are wanted by it.
pub(crate) fn count_readers(n: &Netlist) -> [u16; 576]
    requires { Fits n.now }
    ensures readers { Readers n.now result }
    ensures light { Light result 4000 }
{
    let mut left = [0; 576];
    for g in 0..n.gates {
        count_up(n.operands(g), &mut left);
    }
    left
}
