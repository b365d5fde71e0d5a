// The exact path of hypot, in whole numbers: a pattern with the sign's bit off stands for e exponent fields and a significand.
ghost use Rattle.std.specs.Prelude.{◌≡◌, ℕ, ◌+◌, ◌-◌, ◌*◌, ◌^◌, ◌<◌, ◌≤◌, min, max, nat_le};
ghost use Rattle.hypot.specs.Hypot.{units_of, square, nearest_root};
ghost use Rattle.hypot.specs.Hypot as Spec;
ghost use Rattle.hypot.specs.Steps.{Rooted, Packed};

// Whether two patterns with the sign's bit off are 14 exponent fields or more apart. A difference that wraps serves both orders in one comparison.
pub(crate) fn far_apart(p: u32, q: u32) -> bool
    requires { (p < 0x8000_0000) × (q < 0x8000_0000) }
    ensures { result ≡ nat_le 0x0700_0000 (max p q - min p q) }
{
    let d = std::num::wrapping_sub_u32(p, q);
    0x0dff_fffe < std::num::wrapping_add_u32(d, 0x06ff_ffff)
}

// The bit pattern of x, and 0 for a NaN.
fn pattern(x: f64) -> u64 {
    if x != x { 0 } else { f64::to_bits(x) }
}

// A guess at the root of s. Nothing is claimed of it but its size: `root` corrects what is wrong.
fn guess(s: u64) -> u64
    requires { s < 2 ^ 52 }
    ensures { result < 2 ^ 26 }
{
    let f = f64::from_bits(0x4330_0000_0000_0000 + s) - 4503599627370495.5;
    let h = f * 0.5;
    let a = f64::from_bits(0x5fe6_eb50_c7b5_37a9 - pattern(f) % 0x8000_0000_0000_0000 / 2);
    let b = a * (1.5 - h * a * a);
    let c = b * (1.5 - h * b * b);
    let d = c * (1.5 - h * c * c);
    pattern(f * d + 4503599627370495.5) % 67108864
}

// The whole part of the root of s.
fn root(s: u64) -> u64
    requires { s < 2 ^ 52 }
    ensures { (result * result ≤ s) × (s < (result + 1) * (result + 1)) }
{
    let mut t = guess(s);
    while s < t * t {
        t -= 1;
    }
    while (t + 1) * (t + 1) <= s {
        t += 1;
    }
    t
}

// x is 1 where something is left over, else 0: a number, since `packed` takes it as the last binary digit, 2 * t + x.
#[derive(Clone, Copy)]
struct Found {
    t: u64,
    x: u64,
}

// The root of the squares' sum, in half units of the larger one's last place: its whole part t, and x for whether anything is left over.
fn rooted(a: u64, b: u64, k: u32) -> Found
    requires { (a < 2 ^ 24) × (b < 2 ^ 24) × (k < 64) }
    ensures { Rooted a b k result.t result.x }
{
    let c = 4 * b * b;
    let h = c >> k;
    let s = 4 * a * a + h;
    let t = root(s);
    if t * t == s {
        if h << k == c {
            return Found { t, x: 0 };
        }
    }
    Found { t, x: 1 }
}

// The pattern of t and x, rounded to the nearest, a tie to the even one, and at most the infinity's.
fn packed(e: u32, t: u64, x: u64) -> u32
    requires { (e < 254) × (t < 67108864) × (x < 2) }
    ensures { Packed e t x result }
{
    let w = 2 * t + x;
    if t < 33554432 {
        (e * 8388608 + ((w + 1 + w / 4 % 2) / 4) as u32).min(0x7f80_0000)
    } else {
        (e * 8388608 + 8388608 + ((w + 3 + w / 8 % 2) / 8) as u32).min(0x7f80_0000)
    }
}

// The pattern nearest to the root, of the patterns p and q of two finite magnitudes.
fn nearest(p: u32, q: u32) -> u32
    requires { (q ≤ p) × (p < 0x7f80_0000) }
    ensures { result ≡ nearest_root (square (units_of p) + square (units_of q)) }
{
    if q == 0 {
        return p;
    }
    // How many exponent fields stand before each significand: a field of 0 counts as 1.
    let e = (p / 8388608).saturating_sub(1);
    let g = (q / 8388608).saturating_sub(1);
    let d = e - g;
    let far = d > 12;
    if far {
        return p;
    }
    let r = rooted((p - e * 8388608) as u64, (q - g * 8388608) as u64, 2 * d);
    packed(e, r.t, r.x)
}

// The same for two small patterns: each is its own magnitude in units of the smallest value, so that the nearest whole number to the root is the pattern.
pub(crate) fn nearest_whole(p: u32, q: u32) -> u32
    requires { p + q ≤ 0x0100_0000 }
    ensures { result ≡ nearest_root (square (units_of p) + square (units_of q)) }
{
    if p + q == 0 {
        return 0; // as `root` would find, but sooner
    }
    let a = p as u64;
    let b = q as u64;
    let t = root(4 * (a * a + b * b));
    ((t + 1) / 2) as u32
}

// hypot of any two floats.
pub(crate) fn exact(x: f32, y: f32) -> f32
    ensures { result ≡ Spec.hypot x y }
{
    let p = floats::bits(x) % 0x8000_0000;
    let q = floats::bits(y) % 0x8000_0000;
    let hi = p.max(q);
    let lo = p.min(q);
    if hi < 0x7f80_0000 {
        return f32::from_bits(nearest(hi, lo));
    }
    if p == 0x7f80_0000 {
        return f32::from_bits(0x7f80_0000);
    }
    if q == 0x7f80_0000 {
        return f32::from_bits(0x7f80_0000);
    }
    if 0x7f80_0000 < p {
        return x;
    }
    y
}
