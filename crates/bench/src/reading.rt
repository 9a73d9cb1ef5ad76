// The bench sheet's run lines on reading and evaluating: netlists at the limits, a lower-case digit, a buffer one byte short.
ghost use Rattle.std.specs.Prelude.{◌≡◌, ◌≤◌, length};

use crate::say;
use lines::kind::Kind;
use lines::write;

// Gate j of a chain reads the gate before it, the first one the last input.
fn put_gate(out: &mut [u8], at: usize, operand: u16)
    requires { at ≤ 8000 }
{
    write::put_byte(out, at, Kind::Gate as u8);
    write::put_word(out, at + 2, operand);
    slices::put(out, at + 6, b'\n');
}

// The text of a chain of NOTs with one output; the answer is its length.
pub(crate) fn put_chain(out: &mut [u8], inputs: usize, gates: usize) -> usize
    requires { ((1 ≤ inputs) × (inputs ≤ 100)) × ((1 ≤ gates) × (gates ≤ 600)) }
{
    write::put_byte(out, 0, Kind::Netlist as u8);
    write::put_byte(out, 2, inputs as u8);
    write::put_word(out, 4, gates as u16);
    write::put_byte(out, 8, 1);
    slices::put(out, 10, b'\n');
    for j in 0..gates {
        put_gate(out, 11 + 7 * j, (inputs - 1 + j) as u16);
    }
    let end = 11 + 7 * gates;
    write::put_byte(out, end, Kind::Output as u8);
    write::put_word(out, end + 2, (inputs + gates - 1) as u16);
    slices::put(out, end + 6, b'\n');
    end + 7
}

// Evaluates a text, and shows the answer and the buffer.
fn evaluated(name: &[u8], text: &[u8], inputs: &[u8], out: &mut [u8]) {
    say::answer(name, evaluator::evaluate(text, inputs, out));
    say::bytes(out);
}

fn one(name: &[u8], text: &[u8], inputs: &[u8]) {
    evaluated(name, text, inputs, &mut [9u8; 1]);
}

// Reads and evaluates a chain of so many gates.
fn chain(name: &[u8], inputs: &[u8], gates: usize)
    requires { ((1 ≤ length inputs.now) × (length inputs.now ≤ 100)) × ((1 ≤ gates) × (gates ≤ 600)) }
{
    let mut text = [0; 8192];
    let n = put_chain(&mut text, inputs.len(), gates);
    one(name, text.get(..n).unwrap_or_default(), inputs);
}

pub fn chains() {
    chain(b"64 inputs", &[0u8; 64], 1);
    chain(b"65 inputs", &[0u8; 65], 1);
    chain(b"512 gates", &[0u8; 1], 512);
    chain(b"513 gates", &[0u8; 1], 513);
}

pub fn run() {
    let whole = b"0101000101\n020000\n030001\n";
    one(b"one NOT", whole, &[0u8; 1]);
    evaluated(b"buffer one byte short", whole, &[0u8; 1], &mut [9u8; 0]);
    one(b"an input too many", whole, &[0u8; 2]);
    one(
        b"lower-case digit",
        b"0101000101\n020000\n03000a\n",
        &[0u8; 1],
    );
    one(b"an empty text", b"", &[0u8; 1]);
}
