// The netlist reader: a netlist's text into flat arrays.
#![tactic(auto)]

ghost use Rattle.std.specs.Prelude.{◌≡◌, ◌<◌, ◌≤◌, ◌⊎◌, [], get_or};
ghost use Rattle.rules.specs.Form.{form01};
ghost use Rattle.rules.specs.Netlist.{netlist_lines, netlist_of, well_formed};
ghost use Rattle.rules.specs.Calls.{tail_outcome};
ghost use Rattle.netlist.specs.Flat.{from, gate_in, netlist_in, part_of, reading_of, formed_of, front_of};
ghost use Rattle.netlist.specs.Well.{WellFlat};

use rules::Refusal;

mod body;
pub mod keys;
mod line;
mod twins;
mod used;

// A netlist. Operand k of gate g, counted from 0, is ops[4 g + k], of counts[g]; gate g is the signal inputs + g.
// It has no invariant: it is built before 6 and 7 are asked, and the order and the keys are for any.
#[derive(Clone, Copy)]
pub struct Netlist {
    pub inputs: usize,
    pub gates: usize,
    pub outputs: usize,
    pub ops: [u16; 2048],
    pub counts: [u8; 512],
    pub outs: [u16; 64],
}

// The netlist that a text begins with, and the place after its last output line.
#[derive(Clone, Copy)]
pub struct Front {
    pub netlist: Netlist,
    pub tail: usize,
}

impl Netlist {
    // The operands of gate g; none where the arrays have no such gate.
    #[tactic(auto, using(crate::proofs::Arrays::range_is), unfolding(crate::specs::Flat::gate_in))]
    pub fn operands(&self, g: usize) -> &[u16]
        ensures held { (g < 512) × (get_or self.now.counts g 0 ≤ 4) → result.now ≡ gate_in self.now.ops self.now.counts g }
        ensures none { (512 ≤ g) ⊎ (4 < get_or self.now.counts g 0) → result.now ≡ [] }
    {
        if 512 <= g || 4 < self.counts[g] {
            return &self.ops[..0];
        }
        let start = 4 * g;
        let end = start + usize::from(self.counts[g]);
        &self.ops[start..end]
    }

    // The outputs, as they stand in the text; none where the array does not hold so many.
    #[tactic(auto, using(crate::proofs::Arrays::front_is))]
    pub fn output_list(&self) -> &[u16]
        ensures held { self.now.outputs ≤ 64 → result.now ≡ from self.now.outs 0 self.now.outputs }
        ensures none { 64 < self.now.outputs → result.now ≡ [] }
    {
        if 64 < self.outputs {
            return &self.outs[..0];
        }
        &self.outs[..self.outputs]
    }
}

// The lines of a netlist: 1 to 5. What follows the last output line is not looked at.
#[tactic(auto, using(crate::proofs::Whole::no_head_read))]
pub fn read_lines(text: &[u8]) -> Result<Front, Refusal>
    ensures { part_of text.now result ≡ netlist_lines form01 text.now }
{
    let first = line::read_head(text);
    let Ok(head) = first else {
        return Err(first.unwrap_err());
    };
    let mut netlist = Netlist {
        inputs: head.inputs,
        gates: head.gates,
        outputs: head.outputs,
        ops: [0; 2048],
        counts: [0; 512],
        outs: [0; 64],
    };
    let middle = netlist.read_gates(text, 11)?;
    let tail = netlist.read_outputs(text, middle)?;
    Ok(Front { netlist, tail })
}

// The part of the text that follows the last output line; where a line gives 1 to 5, the empty part at the text's end.
#[tactic(auto, using(crate::proofs::Whole::tail_none, crate::proofs::Whole::tail_read))]
pub fn tail(text: &[u8]) -> &[u8]
    ensures { result.now ≡ tail_outcome text.now }
{
    match read_lines(text) {
        Ok(front) => slices::rest(text, front.tail),
        Err(_) => slices::rest(text, text.len()),
    }
}

// Of a netlist whose lines read well: 6, then 7.
#[tactic(auto, using(crate::proofs::Entry::formed_rules))]
fn well_formed(n: &Netlist) -> Result<(), Refusal>
    requires { WellFlat n.now }
    ensures { formed_of n.now result ≡ well_formed (netlist_in n.now) }
{
    if !used::all_used(n) {
        return Err(Refusal::Unused);
    }
    if twins::any_twins(n) {
        return Err(Refusal::Twins);
    }
    Ok(())
}

// The netlist that a text begins with, whatever follows its last output line: 1 to 5, then 6, then 7.
#[tactic(auto, using(crate::proofs::Entry::front_rules))]
pub fn read_front(text: &[u8]) -> Result<Front, Refusal>
    ensures { part_of text.now result ≡ front_of text.now }
{
    let front = read_lines(text)?;
    well_formed(&front.netlist)?;
    Ok(front)
}

// The netlist that is the whole text: 1 to 5, then a line too many (2 or 1), then 6, then 7.
#[tactic(auto, using(crate::proofs::Entry::read_rules))]
pub fn read(text: &[u8]) -> Result<Netlist, Refusal>
    ensures { reading_of result ≡ netlist_of form01 text.now }
{
    let front = read_lines(text)?;
    lines::ends(text, front.tail)?;
    well_formed(&front.netlist)?;
    Ok(front.netlist)
}
