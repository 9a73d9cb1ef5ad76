// What the checking program prints.
ghost use Rattle.std.specs.Prelude.{◌≡◌, ◌<◌};
ghost use Rattle.std.proofs.lemmas.List.Edits.{sets};
ghost use Rattle.rules.specs.Programs.{cycles_line};

use lines::kind::Kind;
use lines::write;

// 1E and the cycles in two bytes.
#[tactic(auto, using(crate::proofs::Printing::cycles_put))]
pub(crate) fn cycles(out: &mut [u8], n: usize)
    requires { n < 65536 }
    ensures { out.new ≡ sets out.old 0 (cycles_line n) }
{
    write::put_byte(out, 0, Kind::Cycles as u8);
    write::put_word(out, 2, n as u16);
    slices::put(out, 6, b'\n');
}
