// The gate that a NOR line makes: the one whose operand list the operand signals, put in order, are.
ghost use Rattle.std.specs.Prelude.{◌≡◌, ◌+◌, ◌*◌, ◌≤◌, length, min};
ghost use Rattle.instruction.specs.Line.{instruction_in};
ghost use Rattle.index.specs.Chains.{chained};
ghost use Rattle.netlist.specs.Flat.{netlist_in};
ghost use Rattle.netlist.specs.Keys.{keys_in};
ghost use Rattle.netlist.specs.Well.{Well};
ghost use Rattle.book.specs.Cells.{book_in};
ghost use Rattle.book.specs.Steps.{gate_in, gate_for};

use crate::operands;
use book::Book;
use index::Chains;
use instruction::Instruction;
use netlist::Netlist;

// A netlist's gates, found by the keys of their operand lists.
#[derive(Clone, Copy)]
pub(crate) struct Gates<'a> {
    pub(crate) netlist: &'a Netlist,
    keys: [u64; 512],
    chains: Chains,
    ghost well: { Well (netlist_in netlist.now) },
    ghost keyed: { keys ≡ keys_in netlist.now },
    ghost linked: { chains ≡ chained keys (min netlist.now.gates 512) },
}

impl<'a> Gates<'a> {
    pub(crate) fn of(netlist: &'a Netlist) -> Gates<'a>
        requires { Well (netlist_in netlist.now) }
        ensures { result.netlist.now ≡ netlist.now }
    {
        let keys = netlist::keys::gate_keys(netlist);
        let chains = Chains::of(&keys, netlist.gates);
        Gates {
            netlist,
            keys,
            chains,
        }
    }

    // The gate that an instruction makes. A set line makes none, and a NOR has 1 to 4 operands.
    #[tactic(auto, using(crate::proofs::Gating::made_unheld, crate::proofs::Gating::made_gate, crate::proofs::Gating::made_small, crate::proofs::Gating::made_missing))]
    pub(crate) fn made_by(&self, book: &Book, text: &[u8], i: Instruction) -> Option<u16>
        requires { i.first + 2 * i.cells ≤ length text.now }
        ensures { gate_in result ≡ gate_for (netlist_in self.now.netlist.now) (instruction_in text.now i) (book_in book.now) }
    {
        if i.set || !(2..=5).contains(&i.cells) {
            return None;
        }
        let key = operands::key(book, text, i)?;
        let g = self.chains.find(&self.keys, key)?;
        Some((self.netlist.inputs + g) as u16)
    }
}
