// 6: every gate is read by some gate or is an output. Read signals and outputs are marked in one pass.
ghost use Rattle.std.specs.Prelude.{◌≡◌, ◌+◌, ◌≤◌, true};
ghost use Rattle.std.specs.List.{range_with_len};
ghost use Rattle.rules.specs.Basics.{all, set_all};
ghost use Rattle.rules.specs.Netlist.{all_used};
ghost use Rattle.netlist.specs.Flat.{netlist_in};
ghost use Rattle.netlist.specs.Marks.{marked};
ghost use Rattle.netlist.specs.Well.{WellFlat};

use crate::Netlist;
use slices::{at, put};

// The signals of a list are marked.
#[tactic(auto, using(crate::proofs::Marking::mark_turn, crate::proofs::Marking::mark_end))]
fn mark(list: &[u16], marks: &mut [bool])
    ensures { marks.new ≡ set_all true list.now marks.old }
{
    for &s in list {
        put(marks, usize::from(s), true);
    }
}

// Whether the n signals from one on are marked.
fn all_marked(marks: &[bool], first: usize, n: usize) -> bool
    requires { first + n ≤ 4096 }
    ensures { result ≡ all (marked marks.now) (range_with_len first n) }
{
    (first..first + n).all(|s| at(marks, s, false))
}

#[tactic(auto, using(crate::proofs::Marking::gates_none, crate::proofs::Marking::gates_more))]
pub(crate) fn all_used(n: &Netlist) -> bool
    requires { WellFlat n.now }
    ensures { result ≡ all_used (netlist_in n.now) }
{
    let mut marks = [false; 576];
    for g in 0..n.gates {
        mark(n.operands(g), &mut marks);
    }
    mark(n.output_list(), &mut marks);
    all_marked(&marks, n.inputs, n.gates)
}
