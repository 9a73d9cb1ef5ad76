// A frame reader that holds the text and its place. The line reading is in the functions that take a slice and a number, which take
// any slice and any place; the functions over the struct only take it apart.
#![tactic(auto)]

ghost use Rattle.std.specs.Prelude.{◌≡◌};
ghost use Rattle.rules.specs.Calls.{frame_outcome, place_outcome};
ghost use Rattle.frames.specs.Reader.{spot_in, at_start, gives, spot, moved, piece_at, frames_in};

// The text and the place of the next frame.
#[derive(Clone, Copy)]
pub struct Frames<'a> {
    pub text: &'a [u8],
    pub at: usize,
}

// The digits of the frame at a place, a part of the text; the empty part at the text's end where no good line stands there.
pub fn frame_at(text: &[u8], at: usize) -> &[u8]
    ensures { (result.now ≡ frame_outcome text.now at) × (result.ref_ptr ≡ spot_in text.entry at) }
{
    let Ok(n) = lines::read_line(text, at) else {
        let end = text.len();
        return &text[end..];
    };
    let end = at + n;
    &text[at..end]
}

// The place after the frame at a place and its line feed; the same place where no good line stands there.
pub fn place_after(text: &[u8], at: usize) -> usize
    ensures { result ≡ place_outcome text.now at }
{
    let Ok(n) = lines::read_line(text, at) else {
        return at;
    };
    at + n + 1
}

impl<'a> Frames<'a> {
    // A reader at the text's start.
    pub fn new(text: &'a [u8]) -> Frames<'a>
        ensures { result ≡ at_start text.entry }
    {
        Frames { text, at: 0 }
    }

    // The next frame's digits. The reader moves to the place after it, or stays.
    pub fn next(&mut self) -> &'a [u8]
        ensures { ((result.now ≡ gives self.old) × (result.ref_ptr ≡ spot self.old)) × (self.new ≡ moved self.old) }
    {
        let text = self.text;
        let at = self.at;
        self.at = place_after(text, at);
        frame_at(text, at)
    }
}

// The width of the frame at a place (0 where none stands) and the place after it.
#[derive(Clone, Copy)]
pub struct Piece {
    pub width: usize,
    pub next: usize,
}

// One frame by way of a reader that is lent to `next`. Its parameters are plain, so whoever calls it lends nothing.
pub fn piece_at(text: &[u8], at: usize) -> Piece
    ensures { result ≡ piece_at text.now at }
{
    let mut r = Frames { text, at };
    let part = r.next();
    Piece {
        width: part.len(),
        next: r.at,
    }
}

// How many frames the text begins with.
pub fn count(text: &[u8]) -> usize
    ensures { result ≡ frames_in text.now }
{
    // The reader gives the empty part and stays, so it is no iterator.
    let mut r = Frames::new(text);
    let mut n = 0;
    while !r.next().is_empty() {
        n += 1;
    }
    n
}
