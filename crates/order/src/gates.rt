// Gates: the gate operands of a signal, in an order.
ghost use Rattle.std.specs.Prelude.{◌≡◌, ◌<◌, ◌++◌, ◌∷◌, [], length};
ghost use Rattle.rules.specs.Weight.{high_to_low, weight_in};

use slices::at;
use std::marker::Model;

// At most four signals, the first n of a.
#[derive(Drop)]
pub struct Gates {
    n: u8,
    a: [u16; 4],
}

impl Model for Gates {
    ghost use Rattle.std.specs.Prelude.{◌≤◌, ℕ, List, take};

    ghost Value = { List ℕ };

    ghost view = { λ f. take f.n f.a };

    ghost invariant = { λ f. f.n ≤ 4 };
}

pub(crate) fn weight(wts: &[u16], s: u16) -> u16
    ensures { result ≡ weight_in wts.now s }
{
    at(wts, usize::from(s), 0)
}

// From high weight to low, equal weights lower number first.
fn sort(signals: &mut [u16], wts: &[u16])
    ensures { signals.new ≡ high_to_low (weight_in wts.now) signals.old }
{
    signals.sort_unstable_by(|&a, &b| (weight(wts, b), a).cmp(&(weight(wts, a), b)));
}

impl Gates {
    pub(crate) fn none() -> Gates
        ensures { result ≡ [] }
    {
        Gates { n: 0, a: [0; 4] }
    }

    pub(crate) fn signals(&self) -> &[u16]
        ensures { result.now ≡ self.now }
    {
        let end = usize::from(self.n);
        &self.a[..end]
    }

    // x behind the others.
    pub(crate) fn push(&mut self, x: u16)
        requires { length self.old < 4 }
        ensures { self.new ≡ self.old ++ (x ∷ []) }
    {
        self.a[usize::from(self.n)] = x;
        self.n += 1;
    }

    pub(crate) fn sort(&mut self, wts: &[u16])
        ensures { self.new ≡ high_to_low (weight_in wts.now) self.old }
    {
        let end = usize::from(self.n);
        sort(&mut self.a[..end], wts);
    }
}
