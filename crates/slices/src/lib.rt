// Entries of lent slices: another value past the end, and a write past the end changes nothing. So every call takes any slice and any place.
#![tactic(auto)]

ghost use Rattle.std.specs.Prelude.{◌≡◌, ltb, leb, get_or, set, drop};
ghost use Rattle.rules.specs.Basics.{all};
ghost use Rattle.rules.specs.Values.{are_bits};

// The entry at a place, or what stands for those past the end.
pub fn at<T: Copy>(s: &[T], i: usize, past: T) -> T
    ensures { result ≡ get_or s.now i past }
{
    s.get(i).copied().unwrap_or(past)
}

// One entry altered; none past the end.
pub fn put<T: Copy>(s: &mut [T], i: usize, v: T)
    ensures { s.new ≡ set s.old i v }
{
    if i < s.len() {
        s[i] = v;
    }
}

// The part of a slice from a place on; the empty part past the end.
pub fn rest<T>(s: &[T], at: usize) -> &[T]
    ensures { result.now ≡ drop at s.now }
{
    s.get(at..).unwrap_or_default()
}

fn all_bits(s: &[u8]) -> bool
    ensures { result ≡ all (λ b. leb b 1) s.now }
{
    s.iter().all(|&b| b <= 1)
}

// Whether a slice has n bytes, each 0 or 1.
#[tactic(auto, unfolding(rules::specs::Values::are_bits))]
pub fn are_bits(s: &[u8], n: usize) -> bool
    ensures { result ≡ are_bits n s.now }
{
    s.len() == n && all_bits(s)
}

// Whether all entries are below a limit.
pub fn all_below(list: &[u16], limit: usize) -> bool
    ensures { result ≡ all (λ o. ltb o limit) list.now }
{
    list.iter().all(|&o| usize::from(o) < limit)
}
