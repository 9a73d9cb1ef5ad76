// The bench sheet's run lines on mapping: rows outside and at the limit, a buffer one byte short, and the deepest chain.
use crate::{reading, say};

fn one(name: &[u8], row: usize, text: &[u8], out: &mut [u8]) {
    say::answer(name, mapper::map(row, text, out));
    say::text(b"\n");
}

// 512 gates, each reading the one before: the deepest visit there is.
pub fn chain() {
    let mut text = [0; 8192];
    let n = reading::put_chain(&mut text, 1, 512);
    one(
        b"a chain of 512 gates, row 3",
        3,
        text.get(..n).unwrap_or_default(),
        &mut [0u8; 8192],
    );
}

pub fn run() {
    let whole = b"0102000501\n0200000001\n0200000002\n0200010002\n0200030004\n020005\n030006\n";
    one(b"row 1", 1, whole, &mut [0u8; 100]);
    one(b"row 257", 257, whole, &mut [0u8; 100]);
    one(b"row 256", 256, whole, &mut [0u8; 1000]);
    one(b"row 5, buffer of 82", 5, whole, &mut [0u8; 82]);
    one(b"row 5, buffer one byte short", 5, whole, &mut [0u8; 81]);
    one(
        b"row 4, no room, before the buffer",
        4,
        whole,
        &mut [0u8; 1],
    );
}
