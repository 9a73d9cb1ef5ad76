// Operand lists found among others: each list has a key, and keys that leave one remainder hang in one chain, the latest first.
// A link is one more than the place that it leads to; 0 ends a chain.
#![tactic(auto)]

ghost use Rattle.std.specs.Prelude.{◌≡◌, ◌≤◌, min};
ghost use Rattle.index.specs.Chains.{digit_at, key_of, remainder_of, chained, follows, found_in, again_in, twice_in};

use slices::at;

// The first link for each remainder, and the link after each place; whoever asks lends the keys, of any number.
#[derive(Clone, Copy)]
pub struct Chains {
    pub heads: [u16; 1024],
    pub next: [u16; 512],
}

// A list's operand at a place, one more than itself; 0 past the end.
#[tactic(auto, unfolding(crate::specs::Chains::digit_at, rules::specs::Basics::pick))]
fn digit(os: &[u16], k: usize) -> u64
    ensures is { result ≡ digit_at os.now k }
    ensures small { result ≤ 1024 }
{
    os.get(k).map_or(0, |&o| u64::from(o % 1024) + 1)
}

// The key of a list of at most four operands.
#[tactic(auto, unfolding(crate::specs::Chains::key_of))]
pub fn key(os: &[u16]) -> u64
    ensures { result ≡ key_of os.now }
{
    digit(os, 0) + 2048 * (digit(os, 1) + 2048 * (digit(os, 2) + 2048 * digit(os, 3)))
}

fn remainder(key: u64) -> usize
    ensures { result ≡ remainder_of key }
{
    (key % 1021) as usize
}

impl Chains {
    // The chains of the first n keys, of 512 at most.
    #[tactic(auto, using(crate::proofs::Links::chains_start, crate::proofs::Links::chains_turn))]
    pub fn of(keys: &[u64], n: usize) -> Chains
        ensures { result ≡ chained keys.now (min n 512) }
    {
        let mut heads = [0; 1024];
        let mut next = [0; 512];
        for g in 0..n.min(512) {
            let h = remainder(at(keys, g, 0));
            next[g] = heads[h];
            heads[h] = (g + 1) as u16;
        }
        Chains { heads, next }
    }

    // Down the chain from a link on, 512 links at most: the place that has the key.
    #[tactic(auto, using(crate::proofs::Links::follow_rules))]
    fn follow(&self, keys: &[u64], link: u16, key: u64) -> Option<usize>
        ensures { result ≡ follows keys.now self.now.next key 512 link }
    {
        let mut c = link;
        for _turn in 0..512_usize {
            if c == 0 {
                return None;
            }
            let g = usize::from(c) - 1;
            if at(keys, g, 0) == key {
                return Some(g);
            }
            c = at(&self.next, g, 0);
        }
        None
    }

    // The latest place that has the key.
    #[tactic(auto, unfolding(crate::specs::Chains::found_in))]
    pub fn find(&self, keys: &[u64], key: u64) -> Option<usize>
        ensures { result ≡ found_in keys.now self.now key }
    {
        self.follow(keys, self.heads[remainder(key)], key)
    }

    // Whether a place has the key of an earlier one.
    fn again(&self, keys: &[u64], g: usize) -> bool
        ensures { result ≡ again_in keys.now self.now.next g }
    {
        let link = at(&self.next, g, 0);
        self.follow(keys, link, at(keys, g, 0)).is_some()
    }

    // Whether some key stands twice among the first n, of 512 at most.
    pub fn twice(&self, keys: &[u64], n: usize) -> bool
        ensures { result ≡ twice_in keys.now self.now.next 0 (min n 512) }
    {
        (0..n.min(512)).any(|g| self.again(keys, g))
    }
}
