// Texts written into a lent buffer. What falls past the buffer's end is not written, so every call takes any buffer and any place.
ghost use Rattle.std.specs.Prelude.{◌≡◌, ◌+◌, ◌/◌, ◌%◌, [], ◌∷◌};
ghost use Rattle.std.proofs.lemmas.List.Edits.{sets};
ghost use Rattle.rules.specs.Refusals.{number_of};
ghost use Rattle.rules.specs.Lines.{digit_of};
ghost use Rattle.rules.specs.Programs.{refusal_line};

use crate::kind::Kind;
use rules::Refusal;

// The digit for the last four bits of a number.
fn digit(v: u8) -> u8
    ensures { result ≡ digit_of (v % 16) }
{
    let d = v % 16;
    if d < 10 {
        return d + b'0';
    }
    d - 10 + b'A'
}

// The two digits of a byte at a place.
pub fn put_byte(out: &mut [u8], at: usize, b: u8)
    ensures { out.new ≡ sets out.old at (digit_of (b / 16) ∷ digit_of (b % 16) ∷ []) }
{
    if at < out.len() {
        slices::put(out, at, digit(b / 16));
        slices::put(out, at + 1, digit(b));
    }
}

// A two-byte number at a place, high byte first.
pub fn put_word(out: &mut [u8], at: usize, n: u16)
    ensures { out.new ≡ sets (sets out.old at (digit_of (n / 256 / 16) ∷ digit_of (n / 256 % 16) ∷ [])) (at + 2) (digit_of (n % 256 / 16) ∷ digit_of (n % 256 % 16) ∷ []) }
{
    if at < out.len() {
        put_byte(out, at, (n / 256) as u8);
        put_byte(out, at + 2, (n % 256) as u8);
    }
}

// The line that the programs print for a refusal's number, any byte, at the front: 1F and the number.
pub fn put_number(out: &mut [u8], n: u8)
    ensures { out.new ≡ sets out.old 0 (refusal_line n) }
{
    put_byte(out, 0, Kind::Refusal as u8);
    put_byte(out, 2, n);
    slices::put(out, 4, b'\n');
}

// The line of a refusal.
pub fn put_refusal(out: &mut [u8], r: Refusal)
    ensures { out.new ≡ sets out.old 0 (refusal_line (number_of r)) }
{
    put_number(out, r.number());
}
