// The places that are tried for a penalized player, as a list in memory that the caller lends.
#![tactic(auto)]

ghost use Rattle.std.specs.Prelude.{◌≡◌, true, ◌<◌, ◌≤◌, length};
ghost use Rattle.lists.specs.Gather.{flat_to};
ghost use Rattle.lists.specs.Put.{count_if, put_if, fronted};
ghost use Rattle.spacing.specs.Spacing.{places_at};
ghost use Rattle.refusal.specs.Refusal.{unless_refused};
ghost use Rattle.candidates.specs.Candidates as Spec;

use floats::from_count;
use refusal::Refusal;
use tries::Span;

// The refusal for a list of len places, where there is one: 5 for unfit floats, then 6 for too few places, of which the first candidate needs one too.
pub fn candidates_refusal(span: Span, len: usize) -> Result<(), Refusal>
    ensures { result ≡ unless_refused (Spec.refusal_of span.start span.min span.max span.step len) tt }
{
    let w = span.walk();
    let refused = span.unfit();
    let too_long = len <= w.count as usize;
    if refused {
        return Err(Refusal::Distance);
    }
    if too_long {
        return Err(Refusal::ListRoom);
    }
    Ok(())
}

// The list with x at the place n, and one more place filled, or both as they were.
fn put_if(list: &mut [f32], n: usize, counts: bool, x: f32) -> usize
    requires n_in_bounds { counts ≡ true → n < length list.old }
    requires n_in_bounds_2 { n ≤ length list.old }
    ensures value { result ≡ count_if counts n }
    ensures list_after { list.new ≡ put_if counts list.old n x }
{
    if counts {
        list[n] = x;
        return n + 1;
    }
    n
}

// The candidates of some turns at the front of the list, the lower one of each turn first.
fn fill_turns(list: &mut [f32], first: f32, span: Span, turns: u16) -> usize
    requires { length (flat_to turns (places_at first span.min span.max span.step)) ≤ length list.old }
    ensures value { result ≡ length (flat_to turns (places_at first span.min span.max span.step)) }
    ensures list_after { list.new ≡ fronted (flat_to turns (places_at first span.min span.max span.step)) list.old }
{
    let min = span.min;
    let max = span.max;
    let step = span.step;
    let mut n: usize = 0;
    for k in 0..turns {
        let out = from_count(k + 1) * step;
        let lower = first - out;
        let upper = first + out;
        let with_lower = put_if(list, n, lower >= min, lower);
        n = put_if(list, with_lower, upper <= max, upper);
    }
    n
}

// The candidates at the front of the lent list, whose rest is kept, and their number; on a refusal 0, and the whole list is kept.
pub fn fill_candidates(span: Span, list: &mut [f32]) -> usize
    ensures value { result ≡ length (Spec.answer_of span.start span.min span.max span.step (length list.old)) }
    ensures list_after { list.new ≡ fronted (Spec.answer_of span.start span.min span.max span.step (length list.old)) list.old }
{
    let w = span.walk();
    let refused = span.unfit();
    let nothing = refused | (list.len() <= w.count as usize);
    if nothing {
        return 0;
    }
    let first = span.candidate_first();
    let turns = w.turns;
    list[0] = first;
    let n = fill_turns(&mut list[1..], first, span, turns);
    n + 1
}

// The candidates, as the filled front part of the lent list; an empty part on a refusal, and only then.
pub fn penalty_placement_candidates(span: Span, list: &mut [f32]) -> &mut [f32]
    ensures result_value { result.now ≡ Spec.answer_of span.start span.min span.max span.step (length list.old) }
    ensures ref_ptr_value { result.ref_ptr ≡ list.entry.ref_ptr }
{
    let n = fill_candidates(span, list);
    &mut list[..n]
}
