// Limits: whether a netlist keeps to those that the order relies on.
ghost use Rattle.std.specs.Prelude.{◌≡◌, ◌+◌, ◌≤◌, ◌<◌, ltb, IsTrue};
ghost use Rattle.std.specs.List.{range_with_len};
ghost use Rattle.rules.specs.Basics.{all};
ghost use Rattle.order.specs.Plan.{gate_fits, is_flat, Fits};

use netlist::Netlist;
use slices::all_below;

// Whether gate g has at most four operands, all lower than the gate's own number.
#[tactic(auto, unfolding(crate::specs::Plan::gate_fits))]
fn gate_fits(n: &Netlist, g: usize) -> bool
    requires gate { g < 512 }
    requires inputs { n.now.inputs ≤ 64 }
    ensures { result ≡ gate_fits n.now.ops n.now.counts (n.now.inputs + g) g }
{
    n.counts[g] <= 4 && all_below(n.operands(g), n.inputs + g)
}

fn gates_fit(n: &Netlist) -> bool
    requires inputs { n.now.inputs ≤ 64 }
    requires gates { n.now.gates ≤ 512 }
    ensures { result ≡ all (λ g. gate_fits n.now.ops n.now.counts (n.now.inputs + g) g) (range_with_len 0 n.now.gates) }
{
    (0..n.gates).all(|g| gate_fits(n, g))
}

pub(crate) fn fits(n: &Netlist) -> bool
    ensures flat { result ≡ is_flat n.now }
    ensures facts { IsTrue result → Fits n.now }
{
    n.inputs <= 64
        && n.gates <= 512
        && n.outputs <= 64
        && gates_fit(n)
        && all_below(n.output_list(), n.inputs + n.gates)
}
