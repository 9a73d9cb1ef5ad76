// The gates and the outputs of a netlist, line after line.
ghost use Rattle.std.specs.Prelude.{◌≡◌, ◌≤◌, length, IfOk};
ghost use Rattle.netlist.specs.Flat.{from, gates_in};
ghost use Rattle.netlist.specs.Steps.{part, Sized, gate_lines, output_lines};

use crate::{Netlist, line};
use rules::Refusal;

impl Netlist {
    // The gates' lines from a place on: their operands and counts stored. The answer is the place after them.
    pub(crate) fn read_gates(&mut self, text: &[u8], start: usize) -> Result<usize, Refusal>
        requires { (start ≤ length text.now) × Sized self.old }
        ensures means { part text.now (λ _. gates_in self.new.ops self.new.counts self.new.gates) (λ at. at) result ≡ gate_lines text.now start self.new }
        ensures inside { IfOk result (λ at. at ≤ length text.now) }
        ensures kept { self.new ≡ record self.old { ops = self.new.ops; counts = self.new.counts } }
    {
        let mut at = start;
        for g in 0..self.gates {
            let own = self.inputs + g;
            let gate = line::read_gate(text, at, own, &mut self.ops[4 * g..4 * g + 4]);
            let Ok(k) = gate else {
                return gate;
            };
            self.counts[g] = k as u8;
            at += 4 * k + 3;
        }
        Ok(at)
    }

    // The outputs' lines from a place on: the outputs stored. The answer is the place after them. Of the gates' it has the loop alone.
    pub(crate) fn read_outputs(&mut self, text: &[u8], start: usize) -> Result<usize, Refusal>
        requires { (start ≤ length text.now) × Sized self.old }
        ensures means { part text.now (λ _. from self.new.outs 0 self.new.outputs) (λ at. at) result ≡ output_lines text.now start self.new }
        ensures inside { IfOk result (λ at. at ≤ length text.now) }
        ensures kept { self.new ≡ record self.old { outs = self.new.outs } }
    {
        let mut place = start;
        for k in 0..self.outputs {
            let output = line::read_output(text, place, self);
            let Ok(s) = output else {
                return Err(output.unwrap_err());
            };
            self.outs[k] = s;
            place += 7;
        }
        Ok(place)
    }
}
