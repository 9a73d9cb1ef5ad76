// From the bytes of standard input to the bytes of standard output.
ghost use Rattle.std.specs.Prelude.{◌≡◌, ◌≤◌, length};
ghost use Rattle.std.proofs.lemmas.List.Edits.{sets};
ghost use Rattle.rules.specs.Form.{form01};
ghost use Rattle.rules.specs.Programs.{held, mapping_answer};
ghost use Rattle.rules.specs.Calls.{outcome_of, delivered};
ghost use Rattle.rowmap.specs.Job.{job_at};
ghost use Rattle.rowmap.specs.Printed.{rowmap_in};

use lines::kind::Kind;
use rules::Refusal;

// The row that the job line at the front of an input asks for.
#[tactic(auto, using(lines::proofs::Laws::byte_small, crate::proofs::Jobs::job_not, crate::proofs::Jobs::job_other, crate::proofs::Jobs::job_size, crate::proofs::Jobs::job_row))]
fn read_job(input: &[u8]) -> Result<usize, Refusal>
    ensures { result ≡ job_at input.now }
{
    let l = lines::read_line(input, 0);
    let Ok(n) = l else {
        return l;
    };
    if lines::byte_at(input, 0) != Kind::Job as usize || n != 4 {
        return Err(Refusal::WrongFrame);
    }
    Ok(lines::byte_at(input, 2) + 1)
}

// The sequence for an input in the first bytes of a buffer: its length.
fn mapped(input: &[u8], out: &mut [u8]) -> Result<usize, Refusal>
    ensures { outcome_of result out.new ≡ delivered (held input.now (mapping_answer form01 input.now)) out.old }
{
    if 65536 < input.len() {
        return Err(Refusal::BadLine);
    }
    let j = read_job(input);
    let Ok(row) = j else {
        return j;
    };
    mapper::map(row, slices::rest(input, 5), out)
}

// What the mapping program prints with a buffer of so many bytes stands in its first bytes, and the answer is its length.
pub(crate) fn program(input: &[u8], out: &mut [u8]) -> usize
    ensures within { 5 ≤ length out.old → result ≤ length out.old }
    ensures long { result ≡ length (rowmap_in (length out.old) input.now) }
    ensures printed { out.new ≡ sets out.old 0 (rowmap_in (length out.old) input.now) }
{
    match mapped(input, out) {
        Ok(n) => n,
        Err(r) => {
            lines::write::put_refusal(out, r);
            5
        }
    }
}
