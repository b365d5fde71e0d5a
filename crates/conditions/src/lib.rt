// The tests of the rules that can settle a verdict other than Legal, and the verdict that each settles.
#![tactic(auto)]

ghost use Rattle.std.specs.Prelude.{◌≡◌};
ghost use Rattle.conditions.specs.Conditions as Spec;

use game::Positioning;

// The condition that settled a verdict, in the order in which `is_illegally_positioned` has the tests. NoCondition is a case, since a coach's line takes any of them: an Option
// would stand about each test of the rules, and a type without it would ask more of callers.
#[derive(Clone, Copy, PartialEq, Eq)]
pub enum Condition {
    // The verdict is Legal.
    NoCondition,
    // Kick-off, the kicking side: on the mark in Set; in the other half outside the circle; in the other half and in the circle.
    OnCenterMark,
    OutsideCircle,
    InCircle,
    // Kick-off, a side that does not kick: in the other half; in the circle.
    InOpponentHalf,
    InCenterCircle,
    // Penalty kick, the kicking side: on the mark in Set; beyond the mark; in the penalty area; near the mark.
    OnPenaltyMark,
    BeyondPenaltyMark,
    InOpponentPenaltyArea,
    NearPenaltyMark,
    // Penalty kick, a side that does not kick, not its goalkeeper: in its penalty area; behind its mark; near its mark.
    InOwnPenaltyArea,
    BehindOwnMark,
    NearOwnMark,
    // In the avoidance region: near the ball; at a goal kick in the kicking side's penalty area; in its own penalty area as the ball is.
    NearBall,
    InGoalKickArea,
    InAreaOfBall,
}

// The verdict that a condition settles.
pub fn verdict_of(condition: Condition) -> Positioning
    ensures { result ≡ Spec.verdict_of condition }
{
    match condition {
        Condition::NoCondition => Positioning::Legal,
        Condition::InCircle => Positioning::IllegalUnlessKicker,
        Condition::InOpponentPenaltyArea => Positioning::IllegalUnlessKicker,
        Condition::NearPenaltyMark => Positioning::IllegalUnlessKicker,
        Condition::NearBall => Positioning::InAvoidanceRegion,
        Condition::InGoalKickArea => Positioning::InAvoidanceRegion,
        Condition::InAreaOfBall => Positioning::InAvoidanceRegion,
        Condition::OnCenterMark => Positioning::Illegal,
        Condition::OutsideCircle => Positioning::Illegal,
        Condition::InOpponentHalf => Positioning::Illegal,
        Condition::InCenterCircle => Positioning::Illegal,
        Condition::OnPenaltyMark => Positioning::Illegal,
        Condition::BeyondPenaltyMark => Positioning::Illegal,
        Condition::InOwnPenaltyArea => Positioning::Illegal,
        Condition::BehindOwnMark => Positioning::Illegal,
        Condition::NearOwnMark => Positioning::Illegal,
    }
}

// Whether a condition is one of the three of the avoidance region.
pub fn is_avoidance(condition: Condition) -> bool
    ensures { result ≡ Spec.is_avoidance condition }
{
    matches!(
        condition,
        Condition::NearBall | Condition::InGoalKickArea | Condition::InAreaOfBall
    )
}

// Whether there is a condition, so that the verdict is other than Legal.
pub fn is_some(condition: Condition) -> bool
    ensures { result ≡ Spec.is_some condition }
{
    condition != Condition::NoCondition
}
