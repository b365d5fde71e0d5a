// The places that are tried for a penalized player, the wanted one first: one at a time, and how many there are.
#![tactic(auto)]

ghost use Rattle.std.specs.Prelude.{◌≡◌, length};
ghost use Rattle.lists.specs.Gather.{flat_to};
ghost use Rattle.floats.specs.Values.{Within};
ghost use Rattle.spacing.specs.Spacing.{Step, places_at};
ghost use Rattle.tries.specs.Tries as Spec;

use floats::{clamp, from_count, is_nan};

// Where candidates are looked for: from the start, between the bounds, by a step.
#[derive(Clone, Copy)]
pub struct Span {
    pub start: f32,
    pub min: f32,
    pub max: f32,
    pub step: f32,
}

// How far the candidates after the first go: the turns, one for each step out, and how many candidates these give.
#[derive(Clone, Copy)]
pub struct Walk {
    pub turns: u16,
    pub count: u16,
}

// The walk from a first candidate, up to the first k at which both places are out of bounds: all later ones are too.
fn walk_from(first: f32, span: Span) -> Walk
    requires { Within first × Within span.min × Within span.max × Step span.step }
    ensures { (result.turns ≡ Spec.turns_from first span.min span.max span.step) × (result.count ≡ length (flat_to 8192 (places_at first span.min span.max span.step))) }
{
    let min = span.min;
    let max = span.max;
    let step = span.step;
    let mut n: u16 = 0;
    for k in 0..8192 {
        let out = from_count(k + 1) * step;
        let lower = first - out;
        let upper = first + out;
        if (lower < min) & (upper > max) {
            return Walk { turns: k, count: n };
        }
        n += (lower >= min) as u16 + (upper <= max) as u16;
    }
    Walk {
        turns: 8192,
        count: n,
    }
}

// A bound is a NaN, or min is above max: degenerate dimensions, for which clamp has no answer.
fn crossed(min: f32, max: f32) -> bool
    ensures { result ≡ Spec.crossed min max }
{
    let no_min = is_nan(min);
    let no_max = is_nan(max);
    no_min | no_max | (min > max)
}

// Not from -64 to 64.
fn too_far(v: f32) -> bool
    ensures { result ≡ Spec.too_far v }
{
    (v < -64.0) | (v > 64.0)
}

impl Span {
    // Refusal 5: bounds that are not crossed, with floats for which the candidates would not end or would be too many.
    pub fn unfit(self) -> bool
        ensures { result ≡ Spec.unfit self.start self.min self.max self.step }
    {
        let step = self.step;
        let bad_bounds = crossed(self.min, self.max);
        let no_start = is_nan(self.start);
        let far_min = too_far(self.min);
        let far_max = too_far(self.max);
        let no_step = is_nan(step);
        let too_fine = (step > 0.0) & (step < 0.015625);
        !bad_bounds & (no_start | far_min | far_max | no_step | too_fine)
    }

    // The first candidate: the start, moved into the bounds.
    pub fn candidate_first(self) -> f32
        ensures { result ≡ Spec.first_candidate self.start self.min self.max }
    {
        let min = self.min;
        let max = self.max;
        if crossed(min, max) {
            return (min + max) * 0.5;
        }
        clamp(self.start, min, max)
    }

    // The walk after the first candidate; none where there is only one, and where the floats are unfit.
    pub fn walk(self) -> Walk
        ensures { (result.turns ≡ Spec.turns_of self.start self.min self.max self.step) × (result.count ≡ length (Spec.walked self.start self.min self.max self.step)) }
    {
        let bad_bounds = crossed(self.min, self.max);
        let refused = self.unfit();
        if !bad_bounds & !refused & !(self.step <= 0.0) {
            let first = self.candidate_first();
            return walk_from(first, self);
        }
        Walk { turns: 0, count: 0 }
    }

    // How many tries the candidates after the first take.
    pub fn candidate_tries(self) -> u16
        ensures { result ≡ Spec.tries_of self.start self.min self.max self.step }
    {
        let w = self.walk();
        2 * w.turns
    }
}

// The place of the try j: the lower ones have an even j.
pub fn candidate_at(first: f32, step: f32, j: u16) -> f32
    ensures { result ≡ Spec.candidate_at first step j }
{
    let out = from_count(j / 2 + 1) * step;
    if j % 2 == 0 {
        return first - out;
    }
    first + out
}

// Whether the place x of the try j is a candidate.
pub fn is_candidate(min: f32, max: f32, j: u16, x: f32) -> bool
    ensures { result ≡ Spec.is_candidate min max j x }
{
    if j % 2 == 0 {
        return x >= min;
    }
    x <= max
}
