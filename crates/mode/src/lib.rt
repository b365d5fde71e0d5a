// Whether the processor runs in IEEE 754's default float mode, on which every contract on floats leans: rounding to nearest, subnormal numbers kept.
// In the language it always does, so the answer is proved to be true. Compiled, the operations are carried out in the caller's mode, and the answer is false in
// any other. The proof shows that no right caller is refused; that wrong ones are is for `tools/check`, which tries the archive.
#![tactic(auto)]

ghost use Rattle.std.specs.Prelude.{◌≡◌, true};

// 2^-30: added to 1, less than half of the last place.
const TINY: f32 = 9.313225746154785e-10;

// 2^-60: the same in f64.
const TINIER: f64 = 8.673617379884035e-19;

// 2^-125: twice the smallest normal number.
const TWICE: f32 = 2.350988701644575e-38;

// 3 * 2^-127: TWICE less this is subnormal.
const MOST: f32 = 1.7632415262334313e-38;

// `seed` is any number that the compiler cannot know, such as the length of a lent slice: of a known one it would work the answer out, and no test would be left.
// So the call stands before any test of that number: past `len == 563` the length is known.
pub fn is_ieee_mode(seed: usize) -> bool
    ensures { result ≡ true }
{
    let one = f32::from_bits(0x3f80_0000 + (seed % 2) as u32); // 1, or the next number
    let low = -one;
    let wide = one as f64;
    let least = one * TWICE;
    let small = least - MOST; // 0 where subnormal results are flushed
    (one + TINY == one) // not upward
        & (one - TINY == one) // not downward, not toward zero
        & (low + TINY == low) // not upward, not toward zero
        & (low - TINY == low) // not downward
        & (wide + TINIER == wide)
        & (wide - TINIER == wide)
        & (small != 0.0) // nor where subnormal operands count as zeros
        & (small + MOST == least)
}
