// The avoidance region of a free kick: when it is in effect, who is in it, and by which test.
#![tactic(auto)]

ghost use Rattle.std.specs.Prelude.{◌≡◌};
ghost use Rattle.avoidance.specs.Avoidance as Spec;

use conditions::Condition;
use game::{Ball, FieldDimensions, Game, Margins, Player, PlayerPose, SetPlay, Side};

// Whether a set play has an avoidance region: free kicks, goal kicks, corner kicks and throw-ins.
fn has_avoidance_region(set_play: SetPlay) -> bool
    ensures { result ≡ Spec.has_avoidance_region set_play }
{
    matches!(
        set_play,
        SetPlay::DirectFreeKick
            | SetPlay::IndirectFreeKick
            | SetPlay::ThrowIn
            | SetPlay::GoalKick
            | SetPlay::CornerKick
    )
}

// Whether the avoidance region of a free kick (goal kicks, corner kicks and throw-ins too) is in effect.
#[tactic(auto, unfolding(crate::specs::Avoidance::is_avoidance_region_active))]
pub fn is_avoidance_region_active(game: Game) -> bool
    ensures { result ≡ Spec.is_avoidance_region_active game }
{
    let shootout = game::is_shootout(game.phase);
    let playing = game::is_playing(game.state);
    let kicked = game.kicking_side.is_some();
    let region = has_avoidance_region(game.set_play);
    !shootout & playing & !game.stopped & kicked & region
}

// The first test by which a player at this pose is in the avoidance region. For one on its own goal line, which is exempt, no distance is computed.
#[tactic(auto, unfolding(crate::specs::Avoidance::region_condition))]
fn region_condition(
    set_play: SetPlay,
    field: FieldDimensions,
    ball: Ball,
    sign: f32,
    pose: PlayerPose,
    margins: Margins,
) -> Condition
    ensures { result ≡ Spec.region_condition set_play field ball sign pose margins }
{
    if geometry::is_on_own_goal_line(sign * pose.x, pose, field) {
        return Condition::NoCondition;
    }
    let distance = hypot::hypot(pose.x - ball.x, pose.y - ball.y);
    if distance < field.center_circle_radius + pose.radius {
        return Condition::NearBall;
    }
    let goal_kick = set_play == SetPlay::GoalKick;
    let ball_team_x = sign * ball.x;
    let ball_y = floats::abs(ball.y);
    let ball_in_area = (ball_team_x <= -field.length * 0.5 + field.penalty_area_length)
        & (ball_y <= field.penalty_area_width * 0.5);
    if goal_kick & (margins.opponent_penalty_area > 0.0) {
        return Condition::InGoalKickArea;
    }
    if ball_in_area & (margins.own_penalty_area > 0.0) {
        return Condition::InAreaOfBall;
    }
    Condition::NoCondition
}

// The test by which a player of the defending team is in the avoidance region of a free kick.
#[tactic(auto, unfolding(crate::specs::Avoidance::avoidance_condition))]
pub fn avoidance_condition(
    game: Game,
    field: FieldDimensions,
    ball: Ball,
    side: Side,
    player: Player,
    margins: Option<Margins>,
) -> Condition
    ensures { result ≡ Spec.avoidance_condition game field ball side player margins }
{
    let kicking_side = game.kicking_side;
    let active = is_avoidance_region_active(game);
    let other = game::opponent(side);
    let defending = game::is_side(kicking_side, other);
    let unpenalized = game::is_unpenalized(player.penalty);
    if !(active & defending & unpenalized) {
        return Condition::NoCondition;
    }
    let (Some(p), Some(m)) = (player.pose, margins) else {
        return Condition::NoCondition;
    };
    let sign = geometry::side_to_sign(side, game.sides);
    region_condition(game.set_play, field, ball, sign, p, m)
}

// Whether a player of the defending team is in the avoidance region of a free kick.
#[tactic(auto, unfolding(crate::specs::Avoidance::is_in_avoidance_region))]
pub fn is_in_avoidance_region(
    game: Game,
    field: FieldDimensions,
    ball: Ball,
    side: Side,
    player: Player,
    margins: Option<Margins>,
) -> bool
    ensures { result ≡ Spec.is_in_avoidance_region game field ball side player margins }
{
    let condition = avoidance_condition(game, field, ball, side, player, margins);
    conditions::is_avoidance(condition)
}
