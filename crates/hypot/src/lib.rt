// The length of the hypotenuse: the f32 nearest to the exact root, for every two floats.
#![tactic(auto)]

ghost use Rattle.std.specs.Prelude.{◌≡◌, ◌^◌, ◌<◌, not, T, is_nan, to_bits};
ghost use Rattle.std.specs.Float.{binary64};
ghost use Rattle.std.specs.Float.Ieee.{fits, add, mul};
ghost use Rattle.hypot.specs.Hypot as Root;

mod exact;

// The sum of the squares, rounded once: the squares of f32s are exact in f64.
fn sum_of_squares(x: f32, y: f32) -> f64
    requires { T (not (is_nan x)) × T (not (is_nan y)) }
    ensures { result ≡ add binary64 (mul binary64 x x) (mul binary64 y y) }
{
    let a = x as f64;
    let b = y as f64;
    a * a + b * b
}

// A guess at the root of s. Nothing is claimed of it: `hypot` tests it.
fn estimate(s: f64) -> f64
    requires { T (not (is_nan s)) × (to_bits binary64 s < 2 ^ 63) }
    ensures { T (fits binary64 result) }
{
    let a = f64::from_bits(0x5fe3_fc42_0000_0000 - f64::to_bits(s) / 2);
    let g = s * a;
    let z = g * a;
    (g * ((z - 3.464667319328084) * z + 3.2229282691882393))
        * (((z - 0.23622617366153478) * z + 0.5176767926241123)
            * ((z - 1.9427116870954533) * z + 1.9718764790528178))
}

// The f32 nearest to the exact root, a tie to the even one. Where the exponents differ by 14 or more, that is the larger magnitude.
// Else a guess r in f64 is taken if r * r is the sum of the squares to within a part in 2 ^ 35 and no point halfway between two f32s is so near to r:
// the f32s are the f64s whose patterns are multiples of 2 ^ 29, and the points halfway lie in the middle between. What is left is worked out in whole numbers.
pub fn hypot(x: f32, y: f32) -> f32
    ensures { result ≡ Root.hypot x y }
{
    if x == x {
        if y == y {
            let p = f32::to_bits(x) % 0x8000_0000;
            let q = f32::to_bits(y) % 0x8000_0000;
            if exact::far_apart(p, q) {
                return f32::from_bits(p.max(q));
            }
            // Past this sum one of the two is a normal number, and so is the root.
            if p + q <= 0x0100_0000 {
                return f32::from_bits(exact::nearest_whole(p, q));
            }
            let s = sum_of_squares(x, y);
            let r = estimate(s);
            let t = r * r;
            if s * 0.9999999999708962 < t {
                if t < s * 1.0000000000291038 {
                    // r's pattern, counted from where those of the f32s start, and half a step, so that k is the nearest.
                    let b = std::num::wrapping_add_u64(f64::to_bits(r), 0xc800_0000_1000_0000);
                    // How far r is past the point halfway below it, times 8 to fill the u32, so that the two tests are compiled as one: 150000 or more, and as much short of the next point.
                    let m = (b % 0x2000_0000 * 8) as u32;
                    if 1_200_000 <= m {
                        if m <= 4_293_767_296 {
                            // The largest f32 is left out, since a bound of 0x7f80_0000 is compiled to slower code.
                            let k = b / 0x2000_0000;
                            let below = k < 0x7f7f_ffff;
                            if below {
                                return f32::from_bits(k as u32);
                            }
                        }
                    }
                }
            }
        }
    }
    exact::exact(x, y)
}
