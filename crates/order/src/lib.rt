// The order of a netlist's gates: visited from the roots on, high weight first; and how many want each signal.
#![tactic(auto)]

ghost use Rattle.order.specs.Plan.{Planned};

use netlist::Netlist;
use readers::{count_readers, count_up};
use sequence::Sequence;
use visit::visit_roots;
use weights::weigh_all;

mod gates;
mod limits;
mod readers;
mod sequence;
mod visit;
mod weights;

// The first count of seq are the gates in the order of their execution, the others 0. left counts each signal's readers, and the outputs.
#[derive(Clone, Copy)]
pub struct Plan {
    pub count: usize,
    pub seq: [u16; 576],
    pub left: [u16; 576],
}

// The plan of a netlist; of one past the limits of document 01, nothing.
pub fn of(n: &Netlist) -> Plan
    ensures { Planned n.now result }
{
    if !limits::fits(n) {
        return Plan {
            count: 0,
            seq: [0; 576],
            left: [0; 576],
        };
    }
    let mut left = count_readers(n);
    let rows = weigh_all(n);
    let mut order = Sequence::new();
    visit_roots(&rows, &left, n.inputs, n.inputs + n.gates, &mut order);
    let outputs = n.output_list();
    count_up(outputs, &mut left);
    let (count, seq) = order.parts();
    Plan { count, seq, left }
}
