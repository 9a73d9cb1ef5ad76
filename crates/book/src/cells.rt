// The cells that an instruction names: so many, whose digits stand in a text from a place on.
ghost use Rattle.std.specs.Prelude.{◌≡◌, ◌+◌, ◌-◌, ◌*◌, ◌/◌, ◌<◌, ◌≤◌, ltb, length, min};
ghost use Rattle.rules.specs.Basics.{any};
ghost use Rattle.lines.specs.Line.{byte_at, bytes_from};

use instruction::Instruction;

// They stand in any text, as far as it goes; crate row has those of a good line.
#[derive(Clone, Copy)]
pub(crate) struct Cells<'a> {
    pub text: &'a [u8],
    pub first: usize,
    pub count: usize,
    ghost inside: { count ≤ (length text.now - first) / 2 },
}

impl<'a> Cells<'a> {
    // Those of an instruction that stand in the text.
    pub(crate) fn standing(text: &'a [u8], i: Instruction) -> Cells<'a>
        ensures { (result.text.now ≡ text.now) × (result.first ≡ i.first) × (result.count ≡ min i.cells ((length text.now - i.first) / 2)) }
    {
        let room = text.len().saturating_sub(i.first) / 2;
        Cells {
            text,
            first: i.first,
            count: i.cells.min(room),
        }
    }

    // Cell j.
    pub(crate) fn cell(&self, j: usize) -> u8
        requires { j < self.now.count }
        ensures { result ≡ byte_at self.now.text.now (self.now.first + 2 * j) }
    {
        crate::cell_at(self.text, self.first + 2 * j)
    }

    // Whether one of them is below a number.
    pub(crate) fn any_below(&self, n: usize) -> bool
        ensures { result ≡ any (λ c. ltb c n) (bytes_from self.now.text.now self.now.first self.now.count) }
    {
        (0..self.count).any(|j| usize::from(self.cell(j)) < n)
    }
}
