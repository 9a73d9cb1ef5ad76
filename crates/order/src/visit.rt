// Order: to visit a gate, if it has been executed, do nothing; else visit its gate operands, then execute it.
ghost use Rattle.std.specs.Prelude.{◌≡◌, ◌-◌, ◌≤◌, ◌<◌, suc};
ghost use Rattle.rules.specs.Order.{visit};
ghost use Rattle.order.specs.Visit.{ops_in, Lower, order_from};

use crate::gates::Gates;
use crate::sequence::Sequence;

// Signal s and what it needs, executed: rows has each signal's gate operands in the order of visiting.
fn visit(rows: &[Gates; 576], s: usize, order: &mut Sequence)
    requires lower { Lower (ops_in rows.now) }
    requires signal { s < 576 }
    ensures { order.new ≡ visit (ops_in rows.now) (suc s) s order.old }
{
    if order.has(s) {
        return;
    }
    for &o in rows[s].signals() {
        visit(rows, usize::from(o), order);
    }
    order.append(s);
}

// The roots from first up to end visited, lowest number first.
pub(crate) fn visit_roots(
    rows: &[Gates; 576],
    left: &[u16; 576],
    first: usize,
    end: usize,
    order: &mut Sequence,
)
    requires lower { Lower (ops_in rows.now) }
    requires inside { first ≤ end }
    requires signals { end ≤ 576 }
    ensures { order.new ≡ order_from (ops_in rows.now) left.now first (end - first) order.old }
{
    for s in first..end {
        if left[s] == 0 {
            visit(rows, s, order);
        }
    }
}
