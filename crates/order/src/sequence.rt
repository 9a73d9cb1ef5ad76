// Sequence: the signals executed so far, in their order.
ghost use Rattle.std.specs.Prelude.{◌≡◌, ◌<◌, ◌++◌, ◌∷◌, ℕ, false, List, []};
ghost use Rattle.rules.specs.Basics.{mem};
ghost use Rattle.order.specs.Visit.{Listed};

use std::marker::Model;

// Each signal at most once; done marks those that are in.
#[derive(Drop)]
pub struct Sequence {
    done: [bool; 576],
    seq: [u16; 576],
    n: usize,
}

impl Model for Sequence {
    ghost use Rattle.std.specs.Prelude.{ℕ, List, take};
    ghost use Rattle.order.specs.Visit.{Tied};

    ghost Value = { List ℕ };

    ghost view = { λ s. take s.n s.seq };

    ghost invariant = { λ s. Tied s.done s.seq s.n };
}

impl Sequence {
    pub(crate) fn new() -> Sequence
        ensures { result ≡ [] }
    {
        Sequence {
            done: [false; 576],
            seq: [0; 576],
            n: 0,
        }
    }

    pub(crate) fn has(&self, s: usize) -> bool
        requires { s < 576 }
        ensures { result ≡ mem s self.now }
    {
        self.done[s]
    }

    pub(crate) fn append(&mut self, s: usize)
        requires signal { s < 576 }
        requires fresh { mem s self.old ≡ false }
        ensures { self.new ≡ self.old ++ (s ∷ []) }
    {
        self.done[s] = true;
        self.seq[self.n] = s as u16;
        self.n += 1;
    }

    // How many they are, and a list that they are the first of; the others are 0.
    pub(crate) fn parts(self) -> (usize, [u16; 576])
        ensures { Listed self result.0 result.1 }
    {
        let seq = self.seq;
        (self.n, seq)
    }
}
