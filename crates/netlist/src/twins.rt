// 7: no two gates have the same operand list, and no output stands twice.
ghost use Rattle.std.specs.Prelude.{◌≡◌, ◌<◌, EachIndex, slice_index};
ghost use Rattle.rules.specs.Basics.{repeats};
ghost use Rattle.rules.specs.Netlist.{twins};
ghost use Rattle.netlist.specs.Flat.{gates_in, netlist_in, any_twins};
ghost use Rattle.netlist.specs.Well.{WellFlat};

use crate::Netlist;
use crate::keys::gate_keys;
use index::Chains;
use slices::{at, put};

// Whether two gates have the same operand list.
fn twin_gates(n: &Netlist) -> bool
    requires { WellFlat n.now }
    ensures { result ≡ twins (gates_in n.now.ops n.now.counts n.now.gates) }
{
    let keys = gate_keys(n);
    Chains::of(&keys, n.gates).twice(&keys, n.gates)
}

// Whether a signal stands twice.
#[tactic(auto, using(crate::proofs::Alike::repeat_rules))]
fn repeats(list: &[u16]) -> bool
    requires { EachIndex list.now (λ k. slice_index list.now k < 576) }
    ensures { result ≡ repeats list.now }
{
    let mut seen = [false; 576];
    for &s in list {
        let s = usize::from(s);
        if at(&seen, s, false) {
            return true;
        }
        put(&mut seen, s, true);
    }
    false
}

pub(crate) fn any_twins(n: &Netlist) -> bool
    requires { WellFlat n.now }
    ensures { result ≡ any_twins (netlist_in n.now) }
{
    twin_gates(n) || repeats(n.output_list())
}
