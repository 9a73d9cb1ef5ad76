// Weights: a gate's gate operands from high weight to low, and its weight.
ghost use Rattle.std.specs.Prelude.{◌≡◌, ◌≤◌, length};
ghost use Rattle.rules.specs.Weight.{high_to_low, gate_operands, weight_in, weight_from};
ghost use Rattle.order.specs.Plan.{Fits};
ghost use Rattle.order.specs.Tables.{Visits};

use crate::gates::{Gates, weight};
use netlist::Netlist;

// The gates among at most four operands, from high weight to low.
fn sorted(operands: &[u16], wts: &[u16], inputs: usize) -> Gates
    requires { length operands.now ≤ 4 }
    ensures { result ≡ high_to_low (weight_in wts.now) (gate_operands inputs operands.now) }
{
    let mut f = Gates::none();
    for &x in operands {
        if inputs <= usize::from(x) {
            f.push(x);
        }
    }
    f.sort(wts);
    f
}

// The weight of a gate with these gate operands, in their order.
fn weight_of(signals: &[u16], wts: &[u16]) -> usize
    ensures { result ≡ weight_from (weight_in wts.now) signals.now }
{
    signals
        .iter()
        .enumerate()
        .map(|(j, &s)| usize::from(weight(wts, s)) + j)
        .max()
        .unwrap_or(1)
}

// Every gate weighed, lowest number first; the answer is each signal's gate operands in the order of visiting.
pub(crate) fn weigh_all(n: &Netlist) -> [Gates; 576]
    requires { Fits n.now }
    ensures { Visits n.now result }
{
    let mut wts = [0u16; 576];
    let mut rows = std::array::from_fn(|_| Gates::none());
    for g in 0..n.gates {
        let f = sorted(n.operands(g), &wts, n.inputs);
        wts[n.inputs + g] = weight_of(f.signals(), &wts) as u16;
        rows[n.inputs + g] = f;
    }
    rows
}
