// Frames read one at a time through the reader that holds the text and its place: of good, damaged and empty texts.
use crate::say;

// How many frames a text begins with, and the digits of the first.
fn one(name: &[u8], text: &[u8]) {
    say::text(name);
    say::text(b": ");
    say::number(frames::count(text));
    say::text(b" frames, first ");
    say::text(frames::frame_at(text, 0));
    say::text(b"\n");
}

pub fn run() {
    one(b"a good text", b"0102\n03\n");
    one(b"a bad second line", b"0102\n0\n03\n");
    one(b"no last line feed", b"0102\n03");
    one(b"a lone line feed", b"\n0102\n");
    one(b"frames of an empty text", b"");
}
