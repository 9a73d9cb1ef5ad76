// The sequence's text: lines written one behind the other, and the head.
ghost use Rattle.std.specs.Prelude.{◌≡◌, ◌+◌, ◌≤◌, ◌<◌, ℕ, List, [], ◌∷◌, ◌++◌, map, length, take};
ghost use Rattle.std.proofs.lemmas.List.Edits.{sets};
ghost use Rattle.rules.specs.Form.{form01};
ghost use Rattle.rules.specs.Sequence.{Nor, instruction_text, place_text, texts};
ghost use Rattle.mapper.specs.Text.{digits, entry, head_line};

use lines::kind::Kind;
use lines::write::{put_byte, put_word};
use slices::{at, put};
use std::marker::Model;

// Room for the lines behind the head of any sequence; the first len bytes are written.
#[derive(Drop)]
pub(crate) struct Text {
    bytes: [u8; 16384],
    len: usize,
}

// Clauses see what is written.
impl Model for Text {
    ghost Value = { List ℕ };

    ghost view = { λ t. take t.len t.bytes };

    ghost invariant = { λ t. t.len ≤ 16384 };
}

impl Text {
    pub(crate) fn new() -> Text
        ensures { result ≡ [] }
    {
        Text {
            bytes: [0; 16384],
            len: 0,
        }
    }

    pub(crate) fn as_slice(&self) -> &[u8]
        ensures { result.now ≡ self.now }
    {
        &self.bytes[..self.len]
    }

    // The two digits of a byte.
    pub(crate) fn byte(&mut self, b: u8)
        requires { length self.old + 2 ≤ 16384 }
        ensures { self.new ≡ self.old ++ digits b }
    {
        put_byte(&mut self.bytes, self.len, b);
        self.len += 2;
    }

    // The line feed.
    pub(crate) fn feed(&mut self)
        requires { length self.old < 16384 }
        ensures { self.new ≡ self.old ++ (10 ∷ []) }
    {
        self.bytes[self.len] = b'\n';
        self.len += 1;
    }

    // A NOR line: the written cell, then the cells of the operands.
    pub(crate) fn nor(&mut self, c: u8, table: &[u8], operands: &[u16])
        requires room { length self.old ≤ 16000 }
        requires few { length operands.now ≤ 4 }
        ensures { self.new ≡ self.old ++ instruction_text form01 (Nor c (map (entry table.now) operands.now)) }
    {
        self.byte(Kind::Nor as u8);
        self.byte(c);
        for &o in operands {
            self.byte(at(table, usize::from(o), 0));
        }
        self.feed();
    }

    // A place line for each signal of a list: its cell.
    pub(crate) fn places(&mut self, table: &[u8], outs: &[u16])
        requires room { length self.old ≤ 16000 }
        requires few { length outs.now ≤ 64 }
        ensures { self.new ≡ self.old ++ texts (place_text form01) (map (entry table.now) outs.now) }
    {
        for &o in outs {
            self.byte(Kind::Place as u8);
            self.byte(at(table, usize::from(o), 0));
            self.feed();
        }
    }
}

// The head line: 13 characters.
pub(crate) fn put_head(out: &mut [u8], row: usize, inputs: usize, outputs: usize, lines: usize)
    requires { (0 < row) × ((row ≤ 256) × ((inputs < 256) × ((outputs < 256) × (lines < 65536)))) }
    ensures { out.new ≡ sets out.old 0 (head_line row inputs outputs lines) }
{
    put_byte(out, 0, Kind::Sequence as u8);
    put_byte(out, 2, (row - 1) as u8);
    put_byte(out, 4, inputs as u8);
    put_byte(out, 6, outputs as u8);
    put_word(out, 8, lines as u16);
    put(out, 12, b'\n');
}
