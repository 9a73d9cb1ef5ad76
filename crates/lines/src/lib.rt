// Texts: hexadecimal lines read at a place of a slice. Every function takes any slice and any place; crate frames holds both in one struct.
#![tactic(auto)]

ghost use Rattle.std.specs.Prelude.{◌≡◌, ◌+◌, drop};
ghost use Rattle.rules.specs.Lines.{is_digit, value_of, digits};
ghost use Rattle.lines.specs.Line.{line_at, ends_at, byte_at, word_at};

use rules::Refusal;

pub mod kind;
pub mod write;

#[tactic(auto, unfolding(rules::specs::Lines::is_digit))]
fn is_digit(c: u8) -> bool
    ensures { result ≡ is_digit c }
{
    (b'0'..=b'9').contains(&c) || (b'A'..=b'F').contains(&c)
}

// What a digit stands for; any other character counts 0. No branch tells 0-9 from A-F: their mixture cannot be foreseen.
#[tactic(auto, using(crate::proofs::Laws::value_low, crate::proofs::Laws::value_high, crate::proofs::Laws::value_gap, crate::proofs::Laws::value_none, crate::proofs::Laws::value_quick))]
fn value(c: u8) -> u8
    ensures { result ≡ value_of c }
{
    if c < b'0' || b'F' < c {
        return 0;
    }
    let letter = c / 64;
    let low = c % 16;
    if low < letter || 10 - letter * 4 <= low - letter {
        return 0;
    }
    low + letter * 9
}

// How many digits a text begins with.
fn digits(text: &[u8]) -> usize
    ensures { result ≡ digits text.now }
{
    for (i, &c) in text.iter().enumerate() {
        if !is_digit(c) {
            return i;
        }
    }
    text.len()
}

// The line at a place: how many digits it has, with the line feed right after them.
#[tactic(auto, using(crate::proofs::Laws::line_past, crate::proofs::Laws::line_open, crate::proofs::Laws::line_unfed, crate::proofs::Laws::line_odd, crate::proofs::Laws::line_empty, crate::proofs::Laws::line_long, crate::proofs::Laws::line_good))]
pub fn read_line(text: &[u8], at: usize) -> Result<usize, Refusal>
    ensures { result ≡ line_at text.now at }
{
    if text.len() <= at {
        return Err(Refusal::WrongFrame);
    }
    let n = digits(slices::rest(text, at));
    if text.len() - at <= n || text[at + n] != b'\n' || n % 2 != 0 || n < 2 || 514 < n {
        return Err(Refusal::BadLine);
    }
    Ok(n)
}

// Whether the text has ended at a place; else a frame too many if a good line stands there.
#[tactic(auto, using(crate::proofs::Laws::ends_past, crate::proofs::Laws::ends_bad, crate::proofs::Laws::ends_more))]
pub fn ends(text: &[u8], at: usize) -> Result<(), Refusal>
    ensures { result ≡ ends_at text.now at }
{
    if text.len() <= at {
        return Ok(());
    }
    let Err(r) = read_line(text, at) else {
        return Err(Refusal::WrongFrame);
    };
    Err(r)
}

// The byte whose two digits stand at a place.
pub fn byte_at(text: &[u8], at: usize) -> usize
    ensures { result ≡ byte_at text.now at }
{
    if text.len() <= at {
        return 0;
    }
    let h = value(text[at]);
    let l = value(slices::at(text, at + 1, 0));
    usize::from(h) * 16 + usize::from(l)
}

// The two-byte number whose four digits stand at a place.
pub fn word_at(text: &[u8], at: usize) -> usize
    ensures { result ≡ word_at text.now at }
{
    if text.len() <= at {
        return 0;
    }
    if text.len() - at <= 2 {
        return byte_at(text, at) * 256;
    }
    byte_at(text, at) * 256 + byte_at(text, at + 2)
}
