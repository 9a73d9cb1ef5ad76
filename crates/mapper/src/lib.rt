// The mapper: a netlist's text to the text of a sequence for one row.
#![tactic(auto)]

ghost use Rattle.std.specs.Prelude.{◌≡◌, ◌<◌, ◌≤◌, [], Result};
ghost use Rattle.rules.specs.Calls.{outcome_of, map_outcome, delivered};
ghost use Rattle.netlist.specs.Well.{WellFlat};
ghost use Rattle.mapper.specs.Whole.{Due, text_in, BodyOf};

use cells::Cells;
use netlist::Netlist;
use order::Plan;
use rules::Refusal;
use signals::Signals;
use text::{Text, put_head};

mod cells;
mod mapping;
mod signals;
mod text;

// The instructions and the places of a netlist's sequence; the answer is the number of instructions.
fn put_body(n: &Netlist, plan: &Plan, row: usize, text: &mut Text) -> Result<usize, Refusal>
    requires { Due n.now row plan.now × (text.old ≡ []) }
    ensures { BodyOf n.now row text.new result }
{
    let mut signals = Signals::first(n.inputs, &plan.left);
    let cells = Cells::first(n.inputs, row).run(n, &plan.seq[..plan.count], &mut signals, text)?;
    text.places(&signals.table, n.output_list());
    Ok(cells.lines)
}

// The sequence of a netlist whose order is known: 9, 10. Not inlined, so that the text takes no stack while the gates are visited.
#[inline(never)]
fn deliver(n: &Netlist, plan: &Plan, row: usize, out: &mut [u8]) -> Result<usize, Refusal>
    requires { Due n.now row plan.now }
    ensures { outcome_of result out.new ≡ delivered (text_in n.now row) out.old }
{
    let mut text = Text::new();
    let lines = put_body(n, plan, row, &mut text)?;
    let body = text.as_slice();
    let end = 13 + body.len();
    if out.len() < end {
        return Err(Refusal::ShortBuffer);
    }
    put_head(out, row, n.inputs, n.outputs, lines);
    out[13..end].copy_from_slice(body);
    Ok(end)
}

// The sequence of a netlist that was read: 9, 10.
#[tactic(auto, using(crate::proofs::Delivering::no_work_cell))]
fn map_netlist(n: &Netlist, row: usize, out: &mut [u8]) -> Result<usize, Refusal>
    requires { WellFlat n.now × (row ≤ 256) }
    ensures { outcome_of result out.new ≡ delivered (text_in n.now row) out.old }
{
    if row <= n.inputs {
        return Err(Refusal::NoRoom);
    }
    deliver(n, &order::of(n), row, out)
}

// Mapping: 8, netlist, 9, 10.
pub fn map(row: usize, text: &[u8], out: &mut [u8]) -> Result<usize, Refusal>
    ensures { outcome_of result out.new ≡ map_outcome row text.now out.old }
{
    if !(2..=256).contains(&row) {
        return Err(Refusal::RowSize);
    }
    let n = netlist::read(text)?;
    map_netlist(&n, row, out)
}
