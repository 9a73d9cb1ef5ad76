// evaluate: the outputs of a netlist for given inputs.
#![tactic(auto)]

ghost use Rattle.std.specs.Prelude.{◌≡◌, ◌+◌, ◌≤◌, ◌++◌, map, length, take, drop};
ghost use Rattle.std.proofs.lemmas.List.Edits.{sets};
ghost use Rattle.rules.specs.Values.{nor, table};
ghost use Rattle.rules.specs.Calls.{outcome_of, evaluate_outcome};
ghost use Rattle.netlist.specs.Flat.{gates_in};
ghost use Rattle.netlist.specs.Well.{WellFlat};
ghost use Rattle.evaluator.specs.Values.{values_at};

use netlist::Netlist;
use rules::Refusal;

// The inputs, as the first values.
fn copy_in(inputs: &[u8], values: &mut [u8])
    requires { length inputs.now ≤ length values.old }
    ensures { values.new ≡ inputs.now ++ drop (length inputs.now) values.old }
{
    values[..inputs.len()].copy_from_slice(inputs);
}

// The value of a signal.
fn value(values: &[u8], signal: u16) -> u8
    ensures { result ≡ values_at values.now signal }
{
    slices::at(values, usize::from(signal), 0)
}

// 1 when the operands are all 0, else 0.
fn nor_of(values: &[u8], operands: &[u16]) -> u8
    ensures { result ≡ nor values.now operands.now }
{
    u8::from(operands.iter().all(|&o| value(values, o) == 0))
}

// The value of each gate, one after the other, behind those of the inputs.
fn work_out(n: &Netlist, values: &mut [u8])
    requires { WellFlat n.now × (length values.old ≡ 576) }
    ensures { take (n.now.inputs + n.now.gates) values.new ≡ table nor (take n.now.inputs values.old) (gates_in n.now.ops n.now.counts n.now.gates) }
{
    for g in 0..n.gates {
        let v = nor_of(values, n.operands(g));
        slices::put(values, n.inputs + g, v);
    }
}

// The values of the outputs, in the buffer's first bytes.
fn hand_out(values: &[u8], outputs: &[u16], out: &mut [u8])
    ensures { out.new ≡ sets out.old 0 (map (values_at values.now) outputs.now) }
{
    for (k, &o) in outputs.iter().enumerate() {
        slices::put(out, k, value(values, o));
    }
}

// Evaluating: the netlist's refusals, then the inputs', then the buffer's. A refusal leaves every byte.
pub fn evaluate(text: &[u8], inputs: &[u8], out: &mut [u8]) -> Result<usize, Refusal>
    ensures { outcome_of result out.new ≡ evaluate_outcome text.now inputs.now out.old }
{
    let n = netlist::read(text)?;
    if !slices::are_bits(inputs, n.inputs) {
        return Err(Refusal::NotBits);
    }
    if out.len() < n.outputs {
        return Err(Refusal::ShortBuffer);
    }
    let mut values = [0; 576];
    copy_in(inputs, &mut values);
    work_out(&n, &mut values);
    hand_out(&values, n.output_list(), out);
    Ok(n.outputs)
}
