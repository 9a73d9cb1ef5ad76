// The cells of a line: so many, whose digits stand in a text from a place on. In contracts they are the list of their numbers.
ghost use Rattle.std.specs.Prelude.{◌≡◌, not, ℕ, List, ◌+◌, ◌*◌, ◌<◌, ◌≤◌, ltb, eqb, get_or, length, drop};
ghost use Rattle.rules.specs.Basics.{all, mem, repeats, ascending};
ghost use Rattle.rules.specs.Lines.{digits};
ghost use Rattle.lines.specs.Line.{bytes_from};

use std::marker::Model;

// These are a good line's, so that two are the same by their digits; crate book has cells of any text.
#[derive(Drop)]
pub(crate) struct Cells<'a> {
    pub text: &'a [u8],
    pub first: usize,
    pub count: usize,
}

impl<'a> Model for Cells<'a> {
    ghost Value = { List ℕ };

    ghost view = { λ s. bytes_from s.text.now s.first s.count };

    ghost invariant = { λ s. (s.first + 2 * s.count ≤ length s.text.now) × (2 * s.count ≤ digits (drop s.first s.text.now)) };
}

impl Cells<'_> {
    // How many there are.
    pub(crate) fn len(&self) -> usize
        ensures { result ≡ length self.now }
    {
        self.count
    }

    // Cell j.
    #[tactic(auto, using(crate::proofs::Digits::cell_inside))]
    pub(crate) fn cell(&self, j: usize) -> usize
        requires { j < length self.now }
        ensures { result ≡ get_or self.now j 0 }
    {
        lines::byte_at(self.text, self.first + 2 * j)
    }

    // Whether they ascend strictly.
    pub(crate) fn ascend(&self) -> bool
        requires { 1 ≤ length self.now }
        ensures { result ≡ ascending self.now }
    {
        let mut last = self.cell(0);
        for j in 1..self.len() {
            let c = self.cell(j);
            if c <= last {
                return false;
            }
            last = c;
        }
        true
    }

    // Whether each is below the row size.
    pub(crate) fn all_below(&self, row: usize) -> bool
        ensures { result ≡ all (λ c. ltb c row) self.now }
    {
        (0..self.len()).all(|j| self.cell(j) < row)
    }

    // Whether two of them are the same, by their digits.
    #[tactic(auto, using(crate::proofs::Digits::cell_inside))]
    fn alike(&self, i: usize, j: usize) -> bool
        requires { (i < length self.now) × (j < length self.now) }
        ensures { result ≡ eqb (get_or self.now i 0) (get_or self.now j 0) }
    {
        let a = self.first + 2 * i;
        let b = self.first + 2 * j;
        self.text[a] == self.text[b] && self.text[a + 1] == self.text[b + 1]
    }

    // Whether cell i stands among those after it.
    fn comes_again(&self, i: usize) -> bool
        requires { i < length self.now }
        ensures { result ≡ mem (get_or self.now i 0) (drop (i + 1) self.now) }
    {
        let count = self.len();
        (i + 1..count).any(|j| self.alike(i, j))
    }

    // Whether they all differ.
    pub(crate) fn differ(&self) -> bool
        ensures { result ≡ not (repeats self.now) }
    {
        !(0..self.len()).any(|i| self.comes_again(i))
    }
}
