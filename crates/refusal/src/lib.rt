// The refusals of a situation and of a call, by the numbers of document 01.
#![tactic(auto)]

ghost use Rattle.std.specs.Prelude.{◌≡◌};
ghost use Rattle.refusal.specs.Refusal as Spec;

// Why a situation is not judged, or a call not answered, by the number of the refusal.
#[derive(Clone, Copy, PartialEq, Eq, PartialOrd, Ord)]
pub enum Refusal {
    // A size of the field.
    Field = 1,
    // A pose, an allowance or an earlier place.
    Pose = 2,
    // The ball.
    Ball = 3,
    // A player number.
    Number = 4,
    // The distance between placed players, or what candidates are asked for.
    Distance = 5,
    // The lent places are too few for the candidates.
    ListRoom = 6,
    // The lent bytes are too few for the sheet.
    SheetRoom = 7,
    // They are too few for the coach's line.
    TextRoom = 8,
    // The sheet has more than the twelve lines that the display shows.
    Display = 12,
}

// The number of a refusal.
pub fn number_of(refusal: Refusal) -> u8
    ensures { result ≡ Spec.number_of refusal }
{
    refusal as u8
}

// The number of a refusal, or 0 where there is none.
pub fn number_in(told: Result<(), Refusal>) -> u8
    ensures { result ≡ Spec.number_in told }
{
    match told {
        Ok(()) => 0,
        Err(refusal) => number_of(refusal),
    }
}
