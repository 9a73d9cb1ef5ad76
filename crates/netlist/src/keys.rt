// The keys by which a netlist's gates are found: each stands for a gate's operand list.
ghost use Rattle.std.specs.Prelude.{◌≡◌, ◌<◌};
ghost use Rattle.netlist.specs.Keys.{key_at, keys_in};

use crate::Netlist;

// The key of gate g, by its first four operands.
#[tactic(auto, using(crate::proofs::Arrays::range_is), unfolding(crate::specs::Keys::key_at))]
fn gate_key(n: &Netlist, g: usize) -> u64
    requires { g < 512 }
    ensures { result ≡ key_at n.now.ops n.now.counts g }
{
    let start = 4 * g;
    let end = start + usize::from(n.counts[g]).min(4);
    index::key(&n.ops[start..end])
}

// The key of each gate, of 512 at most; 0 behind them.
#[tactic(auto, using(crate::proofs::Keyed::keys_start, crate::proofs::Keyed::keys_turn), unfolding(crate::specs::Keys::keys_in))]
pub fn gate_keys(n: &Netlist) -> [u64; 512]
    ensures { result ≡ keys_in n.now }
{
    let mut keys = [0; 512];
    for g in 0..n.gates.min(512) {
        keys[g] = gate_key(n, g);
    }
    keys
}
