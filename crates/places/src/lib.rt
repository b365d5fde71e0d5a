// Where the ball and the players are placed.
#![tactic(auto)]

ghost use Rattle.std.specs.Prelude.{◌≡◌};
ghost use Rattle.places.specs.Places as Spec;

use floats::PI;
use game::{
    Ball, FieldDimensions, Game, Placement, Player, PlayerPose, SetPlay, Side, SideMapping, Team,
};

// The ball's place in an indirect free kick. Inside the opponents' penalty area it goes back to the line parallel to the goal line.
fn free_kick_place(
    field: FieldDimensions,
    ball: Ball,
    kicking_side: Option<Side>,
    sides: SideMapping,
) -> Placement
    ensures { result ≡ Spec.free_kick_place field ball kicking_side sides }
{
    let own_place = Placement::BallAt(ball.x, ball.y, field.ball_radius);
    let Some(side) = kicking_side else {
        return own_place;
    };
    let sign = geometry::side_to_sign(side, sides);
    let y = floats::abs(ball.y);
    let line_x = field.length * 0.5 - field.penalty_area_length + field.line_width * 0.5;
    let half_width = field.penalty_area_width * 0.5 - field.line_width * 0.5;
    if (sign * ball.x > line_x) & (y <= half_width) {
        return Placement::BallAt(sign * line_x, ball.y, field.ball_radius);
    }
    own_place
}

// The ball's place in a set play that starts during Playing: the corner of the goal area or of the field on the ball's side, or the touchline where the ball
// left the field. The sizes of the field reach to the outer edges of lines, and balls are placed on their middles.
#[tactic(auto, unfolding(crate::specs::Places::ball_at_restart))]
pub fn place_ball_at_restart(game: Game, field: FieldDimensions, ball: Ball) -> Placement
    ensures { result ≡ Spec.ball_at_restart game field ball }
{
    let set_play = game.set_play;
    let kicking_side = game.kicking_side;
    let sides = game.sides;
    let goal_line_x = field.length * 0.5 - field.line_width * 0.5;
    let touchline_y = field.width * 0.5 - field.line_width * 0.5;
    match set_play {
        SetPlay::GoalKick => {
            let area_x = field.length * 0.5 - field.goal_area_length + field.line_width * 0.5;
            let area_y = field.goal_area_width * 0.5 - field.line_width * 0.5;
            let x = floats::copysign(area_x, ball.x);
            let y = floats::copysign(area_y, ball.y);
            Placement::BallAt(x, y, field.ball_radius)
        }
        SetPlay::CornerKick => {
            let x = floats::copysign(goal_line_x, ball.x);
            let y = floats::copysign(touchline_y, ball.y);
            Placement::BallAt(x, y, field.ball_radius)
        }
        SetPlay::ThrowIn => {
            let x = floats::clamp(ball.x, -goal_line_x, goal_line_x);
            let y = floats::copysign(touchline_y, ball.y);
            Placement::BallAt(x, y, field.ball_radius)
        }
        SetPlay::IndirectFreeKick => free_kick_place(field, ball, kicking_side, sides),
        SetPlay::DirectFreeKick => Placement::BallAt(ball.x, ball.y, field.ball_radius),
        _ => Placement::NoPlace,
    }
}

// The ball on the mark of the kicking side, and another place without one.
fn mark_or(
    field: FieldDimensions,
    kicking_side: Option<Side>,
    sides: SideMapping,
    other: Placement,
) -> Placement
    ensures { result ≡ Spec.mark_or field kicking_side sides other }
{
    let Some(side) = kicking_side else {
        return other;
    };
    let sign = geometry::side_to_sign(side, sides);
    let mark_x = field.length * 0.5 - field.penalty_mark_distance;
    Placement::BallAt(sign * mark_x, 0.0, field.ball_radius)
}

// The ball's place when Set is entered.
#[tactic(auto, unfolding(crate::specs::Places::ball_in_set))]
pub fn place_ball_in_set(game: Game, field: FieldDimensions) -> Placement
    ensures { result ≡ Spec.ball_in_set game field }
{
    let phase = game.phase;
    let set_play = game.set_play;
    let kicking_side = game.kicking_side;
    let sides = game.sides;
    let shootout = game::is_shootout(phase);
    if shootout {
        return mark_or(field, kicking_side, sides, Placement::NoPlace);
    }
    let center = Placement::BallAt(0.0, 0.0, field.ball_radius);
    match set_play {
        SetPlay::KickOff => center,
        SetPlay::PenaltyKick => mark_or(field, kicking_side, sides, center),
        _ => Placement::NoPlace,
    }
}

// The place of a present player in a penalty shot: the striker on the line of the opponents' penalty area, the goalkeeper on its goal line, either with its heading
// towards the opponents' goal.
fn shot_place(
    sides: SideMapping,
    field: FieldDimensions,
    side: Side,
    number: u8,
    kicking_side: Side,
) -> Placement
    ensures { result ≡ Spec.shot_place sides field side number kicking_side }
{
    let sign = geometry::side_to_sign(side, sides);
    let theta = if sign > 0.0 { 0.0 } else { PI };
    let team_x = if game::same_side(side, kicking_side) {
        field.length * 0.5 - field.penalty_area_length + field.line_width * 0.5
    } else {
        -(field.length * 0.5 - field.line_width * 0.5)
    };
    Placement::PlayerAt {
        side,
        number,
        x: sign * team_x,
        y: 0.0,
        theta,
    }
}

// The place of a player that has been selected for a penalty shot.
#[tactic(auto, unfolding(crate::specs::Places::penalty_shot_place))]
pub fn place_for_penalty_shot(
    game: Game,
    field: FieldDimensions,
    side: Side,
    number: u8,
    player: Player,
) -> Placement
    ensures { result ≡ Spec.penalty_shot_place game field side number player }
{
    let (Some(kicking_side), Some(_)) = (game.kicking_side, player.pose) else {
        return Placement::NoPlace;
    };
    shot_place(game.sides, field, side, number, kicking_side)
}

// The place of an unpenalised goalkeeper at this pose: the closest point of its goal line between the posts, its heading kept; none where it is on that line
// already.
fn keeper_place(
    field: FieldDimensions,
    side: Side,
    number: u8,
    sign: f32,
    unpenalized: bool,
    pose: PlayerPose,
) -> Placement
    ensures { result ≡ Spec.checked_keeper_place field side number sign unpenalized pose }
{
    let on_line = geometry::is_on_own_goal_line(sign * pose.x, pose, field);
    let line_x = field.length * 0.5 - field.line_width * 0.5;
    let max_y = floats::max(field.goal_width * 0.5 - pose.radius, 0.0);
    let y = floats::clamp(pose.y, -max_y, max_y);
    if unpenalized & !on_line {
        return Placement::PlayerAt {
            side,
            number,
            x: sign * -line_x,
            y,
            theta: pose.theta,
        };
    }
    Placement::NoPlace
}

// The place of a side's goalkeeper when Set is entered for a penalty kick.
#[tactic(auto, unfolding(crate::specs::Places::penalty_goalkeeper_place))]
pub fn place_penalty_goalkeeper(
    game: Game,
    field: FieldDimensions,
    side: Side,
    team: Team,
) -> Placement
    ensures { result ≡ Spec.penalty_goalkeeper_place game field side team }
{
    let Some(number) = team.goalkeeper else {
        return Placement::NoPlace;
    };
    let player = game::player_numbered(team, number);
    let Some(pose) = player.pose else {
        return Placement::NoPlace;
    };
    let sign = geometry::side_to_sign(side, game.sides);
    let unpenalized = game::is_unpenalized(player.penalty);
    keeper_place(field, side, number, sign, unpenalized, pose)
}
