// The remainder of two floats in whole numbers. The language's `%` is compiled to a call of the C library.
ghost use Rattle.std.specs.Prelude.{◌≡◌, ◌*◌, ◌%◌, ◌^◌, ◌<◌, ◌≤◌};
ghost use Rattle.std.specs.Float.{binary32};
ghost use Rattle.std.specs.Float.Ieee.{rem};
ghost use Rattle.floats.specs.Units as Spec;

// The remainder of a, shifted up by k, by b: 32 digits at a time.
fn shifted_remainder(a: u64, b: u64, k: u32) -> u64
    requires { (a < 2 ^ 24) × (0 < b) × (b < 2 ^ 24) }
    ensures { result ≡ a * 2 ^ k % b }
{
    let mut r = a % b;
    let mut left = k;
    while 32 <= left {
        r = r * 0x1_0000_0000 % b;
        left -= 32;
    }
    (r << left) % b
}

// The pattern of a significand and how many exponent fields stand before it, where the significand may be too small for that.
fn pattern_of(r: u32, h: u32) -> u32
    requires { (r < 2 ^ 24) × (h ≤ 253) }
    ensures { (result < 0x7f80_0000) × (Spec.units_in result ≡ r * 2 ^ h) }
{
    if r == 0 {
        return 0;
    }
    let mut s = r;
    let mut e = h;
    while (s < 0x0080_0000) & (0 < e) {
        s *= 2;
        e -= 1;
    }
    e * 0x0080_0000 + s
}

// x less the multiple of y that is nearest to it toward zero, with the sign of x: exact.
pub(crate) fn remainder(x: f32, y: f32) -> f32
    ensures { result ≡ rem binary32 x y }
{
    let b = super::bits(x);
    let p = b % 0x8000_0000;
    let q = super::bits(y) % 0x8000_0000;
    if 0x7f80_0000 <= p {
        return super::from_bits(0x7fc0_0000);
    }
    if 0x7f80_0000 < q {
        return super::from_bits(0x7fc0_0000);
    }
    if q == 0 {
        return super::from_bits(0x7fc0_0000);
    }
    if q == 0x7f80_0000 {
        return x;
    }
    // How many exponent fields stand before each significand: a field of 0 counts as 1.
    let g = (p / 0x0080_0000).saturating_sub(1);
    let h = (q / 0x0080_0000).saturating_sub(1);
    if g < h {
        return x;
    }
    let a = (p - g * 0x0080_0000) as u64;
    let c = (q - h * 0x0080_0000) as u64;
    let r = shifted_remainder(a, c, g - h);
    super::from_bits(b - p + pattern_of(r as u32, h))
}
