// One line a case: its name, and what came of it.
use rules::Refusal;

// Printed by the toolchain's `io` and not by `print!`: a piece that cannot be written is passed over, and no error is named.
pub fn text(t: &[u8]) {
    io::write_all(1, t);
}

pub fn number(n: usize) {
    io::print_decimal(1, n as u64);
}

// A name, then the value or the refusal's number.
pub fn answer(name: &[u8], a: Result<usize, Refusal>) {
    text(name);
    match a {
        Ok(n) => {
            text(b": answered ");
            number(n);
        }
        Err(r) => {
            text(b": refused ");
            number(usize::from(r.number()));
        }
    }
}

// The bytes of a row or a buffer, each 0 to 9, and the end of the line.
pub fn bytes(l: &[u8]) {
    text(b", ");
    for &b in l {
        number(usize::from(b % 10));
    }
    text(b"\n");
}
