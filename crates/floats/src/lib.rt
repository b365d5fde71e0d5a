// The functions on floats that the rules use, each equal to its definition for every float. The rules see only these contracts and the laws.
#![tactic(auto)]

ghost use Rattle.std.specs.Prelude.{◌≡◌};
ghost use Rattle.std.specs.Float.Ieee as Ieee;
ghost use Rattle.std.specs.Float.{binary32};
ghost use Rattle.std.specs.Float.Ieee.{to_bits};
ghost use Rattle.floats.specs.Leaves as Spec;
ghost use Rattle.floats.specs.Compare as Compare;

mod remainder;

use std::cmp::Ordering;

// The f32 nearest to pi.
pub const PI: f32 = 3.14159274;

pub fn is_nan(x: f32) -> bool
    ensures { result ≡ Ieee.is_nan x }
{
    x != x
}

// The bit pattern; of a NaN the one that `to_bits` writes.
pub fn bits(x: f32) -> u32
    ensures { result ≡ to_bits binary32 x }
{
    if x != x { 0x7fc0_0000 } else { f32::to_bits(x) }
}

// The value of any pattern. A NaN is made by arithmetic, since the language's own function asks that the pattern is none.
pub fn from_bits(b: u32) -> f32
    ensures { result ≡ Ieee.of_bits binary32 b }
{
    let nan = 0x7f80_0000 < b % 0x8000_0000;
    if nan {
        let inf = f32::from_bits(0x7f80_0000);
        inf - inf
    } else {
        f32::from_bits(b)
    }
}

// The float of a count, for `k as f32`.
pub fn from_count(k: u16) -> f32
    ensures { result ≡ Spec.of_count k }
{
    k as f32
}

// Whether the sign's bit is on.
fn negative(x: f32) -> bool
    ensures { result ≡ Spec.negative x }
{
    0x8000_0000 <= bits(x)
}

pub fn abs(x: f32) -> f32
    ensures { result ≡ Spec.abs x }
{
    if x != x {
        x
    } else {
        f32::from_bits(f32::to_bits(x) % 0x8000_0000)
    }
}

pub fn copysign(x: f32, y: f32) -> f32
    ensures { result ≡ Spec.copysign x y }
{
    let a = abs(x);
    if negative(y) { -a } else { a }
}

// x where it is less, beside a NaN, and of the zeros where it is -0. Without a branch, since which of the two is less cannot be foreseen.
pub fn min(x: f32, y: f32) -> f32
    ensures { result ≡ Spec.minimum_number x y }
{
    let first = (x < y) | is_nan(y) | (!(y < x) & negative(x));
    if first { x } else { y }
}

// min with the signs changed.
pub fn max(x: f32, y: f32) -> f32
    ensures { result ≡ Spec.maximum_number x y }
{
    -min(-x, -y)
}

// The Rust's clamp panics at a NaN bound and at lo above hi: here x comes back.
pub fn clamp(x: f32, lo: f32, hi: f32) -> f32
    ensures { result ≡ Spec.clamp x lo hi }
{
    if lo <= hi {
        if x < lo {
            lo
        } else if hi < x {
            hi
        } else {
            x
        }
    } else {
        x
    }
}

// The place of a pattern in the total order, whose keys are compared as numbers.
pub fn total_key(b: u32) -> u32
    ensures { result ≡ Spec.total_key b }
{
    if 0x8000_0000 <= b {
        0xffff_ffff - b
    } else {
        0x8000_0000 + b
    }
}

pub fn total_cmp(x: f32, y: f32) -> Ordering
    ensures { result ≡ Compare.order (Spec.total_order x y) }
{
    let a = total_key(bits(x));
    let b = total_key(bits(y));
    a.cmp(&b)
}

pub fn rem_euclid(x: f32, y: f32) -> f32
    ensures { result ≡ Spec.rem_euclid x y }
{
    let r = remainder::remainder(x, y);
    let s = r + abs(y); // before the test, so that it is compiled without a branch
    if r < 0.0 { s } else { r }
}
