// The lines of a sequence: each answers the place of the next line, or its refusal.
ghost use Rattle.std.specs.Prelude.{◌≡◌, ℕ, ◌<◌, ◌≤◌, ◌^◌, length, Result, Ok, IfOk};
ghost use Rattle.rules.specs.Form.{form01};
ghost use Rattle.rules.specs.Refusals.{Res, meaning, meaning_by};
ghost use Rattle.rules.specs.Sequence.{set_of, nor_of, instruction_of, place_of};
ghost use Rattle.lines.specs.Line.{line_at};
ghost use Rattle.row.specs.Answers.{line_answer, lines_answer, head_answer, head_of, numbers_fit, passed, judged_of};

use crate::cells::Cells;
use lines::kind::Kind;
use rules::Refusal;

// Document 01's numbers.
const ROW_MOST: usize = 256;

const INPUTS_MOST: usize = 64;

const OUTPUTS_MOST: usize = 64;

const INSTRUCTIONS_MOST: usize = 1024;

// How many digits a head's line has, and where the line after it begins.
const HEAD_DIGITS: usize = 12;

pub(crate) const CODE: usize = 13;

// The numbers of a sequence's head.
#[derive(Clone, Copy)]
pub(crate) struct Numbers {
    pub row: usize,
    pub inputs: usize,
    pub outputs: usize,
    pub instructions: usize,
}

impl Numbers {
    // Whether they are those of document 01.
    fn fit(self) -> bool
        ensures { result ≡ numbers_fit (head_of self) }
    {
        (2..=ROW_MOST).contains(&self.row)
            && (1..=INPUTS_MOST).contains(&self.inputs)
            && (1..=OUTPUTS_MOST).contains(&self.outputs)
            && (1..=INSTRUCTIONS_MOST).contains(&self.instructions)
            && self.inputs < self.row
    }
}

// The head's line.
#[tactic(auto, using(lines::proofs::Laws::byte_read))]
pub(crate) fn head_line(text: &[u8]) -> Result<Numbers, Refusal>
    ensures means { meaning_by head_of result ≡ head_answer text.now }
    ensures long { IfOk result (λ _. line_at text.now 0 ≡ Ok 12) }
{
    let l = lines::read_line(text, 0);
    let Ok(n) = l else {
        return Err(l.unwrap_err());
    };
    if lines::byte_at(text, 0) != Kind::Sequence as usize || n != HEAD_DIGITS {
        return Err(Refusal::WrongFrame);
    }
    let head = Numbers {
        row: lines::byte_at(text, 2) + 1,
        inputs: lines::byte_at(text, 4),
        outputs: lines::byte_at(text, 6),
        instructions: lines::word_at(text, 8),
    };
    if !head.fit() {
        return Err(Refusal::HeadNumber);
    }
    Ok(head)
}

// What a line's cells give: 5 before 12.
fn judged(orderly: bool, below: bool) -> Result<(), Refusal>
    ensures { meaning_by (λ u. u) result ≡ judged_of orderly below }
{
    match (orderly, below) {
        (false, _) => Err(Refusal::NotAscending),
        (true, false) => Err(Refusal::PastRow),
        (true, true) => Ok(()),
    }
}

// A set line's cells.
fn set_line(cells: &Cells<'_>, row: usize) -> Result<(), Refusal>
    requires { length cells.now ≤ 256 }
    ensures { meaning_by (λ u. u) result ≡ passed (set_of form01 row cells.now) }
{
    if cells.len() < 1 {
        return Err(Refusal::WrongFrame);
    }
    // Of cells that ascend the last is the highest.
    judged(cells.ascend(), cells.cell(cells.len() - 1) < row)
}

// A NOR line's cells.
fn nor_line(cells: &Cells<'_>, row: usize) -> Result<(), Refusal>
    ensures { meaning_by (λ u. u) result ≡ passed (nor_of form01 row cells.now) }
{
    if !(2..=5).contains(&cells.len()) {
        return Err(Refusal::WrongFrame);
    }
    judged(cells.differ(), cells.all_below(row))
}

// The line at a place as an instruction.
#[tactic(auto, using(crate::proofs::Framed::line_inside, crate::proofs::Framed::line_least))]
pub(crate) fn instruction_line(text: &[u8], at: usize, row: usize) -> Result<usize, Refusal>
    ensures { meaning result ≡ line_answer (instruction_of form01 row) text.now at }
{
    let l = lines::read_line(text, at);
    let Ok(n) = l else {
        return l;
    };
    let cells = Cells {
        text,
        first: at + 2,
        count: n / 2 - 1,
    };
    let kind = lines::byte_at(text, at);
    if kind == Kind::Set as usize {
        set_line(&cells, row)?;
    } else if kind == Kind::Nor as usize {
        nor_line(&cells, row)?;
    } else {
        return Err(Refusal::WrongFrame);
    }
    Ok(at + n + 1)
}

// The line at a place as a place.
#[tactic(auto, using(crate::proofs::Framed::line_inside, crate::proofs::Framed::line_least))]
pub(crate) fn place_line(text: &[u8], at: usize, row: usize) -> Result<usize, Refusal>
    ensures { meaning result ≡ line_answer (place_of form01 row) text.now at }
{
    let l = lines::read_line(text, at);
    let Ok(n) = l else {
        return l;
    };
    if lines::byte_at(text, at) != Kind::Place as usize || n != 4 {
        return Err(Refusal::WrongFrame);
    }
    if row <= lines::byte_at(text, at + 2) {
        return Err(Refusal::PastRow);
    }
    Ok(at + n + 1)
}

// So many lines from a place on, each read where it stands.
pub(crate) fn each_line<F: Fn(usize) -> Result<usize, Refusal>>(
    read: F,
    start: usize,
    count: usize,
) -> Result<usize, Refusal>
    requires { F.IsAlwaysCallable read }
    ensures { (line : ℕ → Res ℕ) → ((at : ℕ) (r : _) → at < 2 ^ 64 → F.post read at r → meaning r ≡ line at) → meaning result ≡ lines_answer line start count }
{
    let mut at = start;
    for _line in 0..count {
        let l = read(at);
        let Ok(next) = l else {
            return l;
        };
        at = next;
    }
    Ok(at)
}
