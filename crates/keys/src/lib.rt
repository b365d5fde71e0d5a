// Players as numbers in an order: of two keys the lower one comes first.
#![tactic(auto)]

ghost use Rattle.std.specs.Prelude.{◌≡◌, get_or};
ghost use Rattle.keys.specs.Keys as Spec;

// Above the key of every player who has one. A number and no Option: so the least of two is one comparison of numbers, and the definitions count keys below a number.
pub const NO_KEY: u64 = 0x40_0000_0000;

// The lower of two keys, where the first is not below `from`; else the second.
pub fn lower_from(from: u64, key: u64, best: u64) -> u64
    ensures { result ≡ Spec.lower_from from key best }
{
    if (from <= key) & (key < best) {
        key
    } else {
        best
    }
}

// The least key that is not below `from`.
pub fn least_from(keys: &[u64; 20], from: u64) -> u64
    ensures { result ≡ Spec.least_from 20 (λ k. get_or keys.now k 0) from }
{
    let mut best: u64 = NO_KEY;
    for i in 0..20 {
        best = lower_from(from, keys[i], best);
    }
    best
}
