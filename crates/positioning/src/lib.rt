// Where a player may stand in a set play: the test of the rules that settles the verdict on its position, and the verdict.
#![tactic(auto)]

ghost use Rattle.std.specs.Prelude.{◌≡◌};
ghost use Rattle.positioning.specs.Positioning as Spec;

use conditions::Condition;
use game::{
    Ball, FieldDimensions, Game, Margins, Penalty, Player, PlayerPose, Positioning, SetPlay, Side,
    State, Team,
};

// The condition of a kick-off.
#[tactic(auto, unfolding(crate::specs::Positioning::kick_off_condition))]
fn kick_off_condition(game: Game, field: FieldDimensions, side: Side, pose: PlayerPose) -> Condition
    ensures { result ≡ Spec.kick_off_condition game field side pose }
{
    let state = game.state;
    let sides = game.sides;
    let kicking_side = game.kicking_side;
    let set = game::is_set(state);
    let sign = geometry::side_to_sign(side, sides);
    let opponent_half = sign * pose.x > -(field.line_width * 0.5 + pose.radius);
    let distance = hypot::hypot(pose.x, pose.y);
    let mark = distance < field.mark_radius + pose.radius;
    let circle = distance < field.center_circle_radius + pose.radius;
    if game::is_side(kicking_side, side) {
        if set & mark {
            return Condition::OnCenterMark;
        }
        if !opponent_half {
            return Condition::NoCondition;
        }
        if !circle {
            return Condition::OutsideCircle;
        }
        return Condition::InCircle;
    }
    if opponent_half {
        return Condition::InOpponentHalf;
    }
    if circle {
        return Condition::InCenterCircle;
    }
    Condition::NoCondition
}

// The condition of a penalty kick for a player of the kicking side.
#[tactic(auto, unfolding(crate::specs::Positioning::attack_condition))]
fn attack_condition(
    state: State,
    field: FieldDimensions,
    team_x: f32,
    pose: PlayerPose,
    margins: Margins,
) -> Condition
    ensures { result ≡ Spec.attack_condition state field team_x pose margins }
{
    let set = game::is_set(state);
    let mark_x = field.length * 0.5 - field.penalty_mark_distance;
    let distance = hypot::hypot(team_x - mark_x, pose.y);
    if set & (distance < field.mark_radius + pose.radius) {
        return Condition::OnPenaltyMark;
    }
    if team_x > mark_x {
        return Condition::BeyondPenaltyMark;
    }
    if margins.opponent_penalty_area > 0.0 {
        return Condition::InOpponentPenaltyArea;
    }
    if distance < field.center_circle_radius + pose.radius {
        return Condition::NearPenaltyMark;
    }
    Condition::NoCondition
}

// The condition of a penalty kick. The goalkeeper of a side that does not kick is exempt: it stands on its goal line.
#[tactic(auto, unfolding(crate::specs::Positioning::penalty_kick_condition, crate::specs::Positioning::defence_condition))]
fn penalty_kick_condition(
    game: Game,
    field: FieldDimensions,
    side: Side,
    goalkeeper: bool,
    pose: PlayerPose,
    margins: Margins,
) -> Condition
    ensures { result ≡ Spec.penalty_kick_condition game field side goalkeeper pose margins }
{
    let state = game.state;
    let sides = game.sides;
    let kicking_side = game.kicking_side;
    let sign = geometry::side_to_sign(side, sides);
    let team_x = sign * pose.x;
    let kicking = game::is_side(kicking_side, side);
    if kicking {
        return attack_condition(state, field, team_x, pose, margins);
    }
    if goalkeeper {
        return Condition::NoCondition;
    }
    let own_mark_x = -(field.length * 0.5 - field.penalty_mark_distance);
    if margins.own_penalty_area > 0.0 {
        return Condition::InOwnPenaltyArea;
    }
    if team_x < own_mark_x {
        return Condition::BehindOwnMark;
    }
    let distance = hypot::hypot(team_x - own_mark_x, pose.y);
    if distance < field.center_circle_radius + pose.radius {
        return Condition::NearOwnMark;
    }
    Condition::NoCondition
}

// Whether the game is in Set or Playing outside the shoot-out.
pub fn is_set_or_playing(game: Game) -> bool
    ensures { result ≡ Spec.is_set_or_playing game }
{
    let shootout = game::is_shootout(game.phase);
    let set = game::is_set(game.state);
    let playing = game::is_playing(game.state);
    !shootout & (set | playing)
}

// Whether a player's position is judged, which no penalised one's is.
fn is_judged(game: Game, penalty: Penalty) -> bool
    ensures { result ≡ Spec.is_judged game penalty }
{
    let unpenalized = game::is_unpenalized(penalty);
    is_set_or_playing(game) & unpenalized
}

// The condition that settles the verdict on a player's position. What judges a side stays four parameters: as one struct it is taken apart in each body, and each clause names its four fields.
#[tactic(auto, unfolding(crate::specs::Positioning::condition_of))]
pub fn condition_of(
    game: Game,
    field: FieldDimensions,
    ball: Ball,
    side: Side,
    goalkeeper: Option<u8>,
    number: u8,
    player: Player,
    margins: Option<Margins>,
) -> Condition
    ensures { result ≡ Spec.condition_of game field ball side goalkeeper number player margins }
{
    if !is_judged(game, player.penalty) {
        return Condition::NoCondition;
    }
    let (Some(p), Some(m)) = (player.pose, margins) else {
        return Condition::NoCondition;
    };
    match game.set_play {
        SetPlay::NoSetPlay => Condition::NoCondition,
        SetPlay::KickOff => kick_off_condition(game, field, side, p),
        SetPlay::PenaltyKick => {
            let keeper = game::is_number(goalkeeper, number);
            penalty_kick_condition(game, field, side, keeper, p, m)
        }
        _ => avoidance::avoidance_condition(game, field, ball, side, player, margins),
    }
}

// Whether anybody's position can be judged: in Set and Playing outside the shoot-out, while a set play is on.
pub fn is_judging(game: Game) -> bool
    ensures { result ≡ Spec.is_judging game }
{
    let set_play = game.set_play;
    (set_play != SetPlay::NoSetPlay) & is_set_or_playing(game)
}

// The conditions on a team's players by their places. For both sides' verdicts and the coach's lines there is this one loop, so that the compiler has the walk inside it.
pub fn team_conditions(
    game: Game,
    field: FieldDimensions,
    ball: Ball,
    side: Side,
    team: Team,
    margins: [Option<Margins>; 20],
) -> [Condition; 20]
    ensures { result ≡ Spec.team_conditions game field ball side team margins }
{
    let players = team.players;
    let goalkeeper = team.goalkeeper;
    let mut out = [Condition::NoCondition; 20];
    for i in 0..20 {
        let player = players[i];
        let known = margins[i];
        let number = (i + 1) as u8;
        out[i] = condition_of(game, field, ball, side, goalkeeper, number, player, known);
    }
    out
}

// Whether a player stands where the rules of the set play forbid it. The limit in the goal area is `goal_area_excess`.
#[tactic(auto, unfolding(crate::specs::Positioning::is_illegally_positioned))]
pub fn is_illegally_positioned(
    game: Game,
    field: FieldDimensions,
    ball: Ball,
    side: Side,
    goalkeeper: Option<u8>,
    number: u8,
    player: Player,
    margins: Option<Margins>,
) -> Positioning
    ensures { result ≡ Spec.is_illegally_positioned game field ball side goalkeeper number player margins }
{
    let condition = condition_of(game, field, ball, side, goalkeeper, number, player, margins);
    conditions::verdict_of(condition)
}
