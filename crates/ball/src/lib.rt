// What follows when the ball leaves the field.
#![tactic(auto)]

ghost use Rattle.std.specs.Prelude.{◌≡◌};
ghost use Rattle.game.specs.Game.{opponent};
ghost use Rattle.ball.specs.Ball as Spec;

use game::{Ball, BallJudgment, FieldDimensions, Game, Restart, RestartKind, Side, SideMapping};

// Whether a team may score before another player has touched the ball. From a kick-off a team with at most two players may, once its kicker, with the first touch or a later one, has touched
// the ball outside the center circle; from an indirect restart, once it has touched it again far from the kick, which the Restart record tells of small teams alone.
fn may_score(restart: Restart, players_of_scoring_side: usize) -> bool
    ensures { result ≡ Spec.may_score restart.kind restart players_of_scoring_side }
{
    let kind = restart.kind;
    match kind {
        RestartKind::KickOff => {
            restart.kicker_touched_outside_center_circle & (players_of_scoring_side <= 2)
        }
        RestartKind::Indirect => restart.kicker_touched_far_from_kick,
        RestartKind::Direct => true,
        RestartKind::PenaltyShot => true,
    }
}

// Whether the restart is a penalty shot.
fn is_penalty_shot(kind: RestartKind) -> bool
    ensures { result ≡ Spec.is_penalty_shot kind }
{
    kind == RestartKind::PenaltyShot
}

// What is called in place of a goal for a side, none where the goal is valid, given the restart that is in effect and whether invalid goals are judged at all.
#[tactic(auto, unfolding(crate::specs::Ball::judge_restart_goal))]
pub fn judge_goal(
    invalid_goals_judged: bool,
    restart: Option<Restart>,
    scoring_side: Side,
    players_of_scoring_side: usize,
) -> Option<BallJudgment>
    ensures { result ≡ Spec.judge_goal invalid_goals_judged restart scoring_side players_of_scoring_side }
{
    if !invalid_goals_judged {
        return None;
    }
    let r = restart?;
    if r.other_touch {
        return None;
    }
    let defending_side = game::opponent(scoring_side);
    if game::same_side(r.side, defending_side) {
        if is_penalty_shot(r.kind) {
            return None;
        }
        return Some(BallJudgment::CornerKick(scoring_side));
    }
    if may_score(r, players_of_scoring_side) {
        return None;
    }
    Some(BallJudgment::GoalKick(defending_side))
}

// Whether the whole ball is past a goal line.
fn is_past_goal_line(field: FieldDimensions, ball: Ball) -> bool
    ensures { result ≡ Spec.past_goal_line field ball }
{
    let x = floats::abs(ball.x);
    x > field.length * 0.5 + field.ball_radius
}

// Whether the whole ball is past a touchline.
fn is_past_touchline(field: FieldDimensions, ball: Ball) -> bool
    ensures { result ≡ Spec.past_touchline field ball }
{
    let y = floats::abs(ball.y);
    y > field.width * 0.5 + field.ball_radius
}

// Whether the whole ball is between the goal posts and under the crossbar.
fn is_in_goal(field: FieldDimensions, ball: Ball) -> bool
    ensures { result ≡ Spec.in_goal field ball }
{
    let y = floats::abs(ball.y);
    (y + field.ball_radius < field.goal_width * 0.5)
        & (ball.z + field.ball_radius < field.goal_height)
}

// The side that defends the goal at positive x, or the other.
fn defender_of(sides: SideMapping, left: bool) -> Side
    ensures { result ≡ Spec.defender_of sides left }
{
    match sides {
        SideMapping::HomeDefendsLeftGoal => { if left { Side::Home } else { Side::Away } }
        SideMapping::HomeDefendsRightGoal => { if left { Side::Away } else { Side::Home } }
    }
}

// Whether there is a penalty shot that was taken.
fn is_shot_taken(restart: Option<Restart>) -> bool
    ensures { result ≡ Spec.shot_taken restart }
{
    restart.is_some_and(|r| is_penalty_shot(r.kind) & r.kicker.is_some())
}

// The judgment in a penalty shoot-out, where there is a kicking side: a goal, or the end of the shot once the ball is out or has come to rest.
#[tactic(auto, unfolding(crate::specs::Ball::judge_shot))]
fn judge_shootout(
    kicking_side: Option<Side>,
    sides: SideMapping,
    field: FieldDimensions,
    ball: Ball,
    restart: Option<Restart>,
    ball_rested: bool,
) -> BallJudgment
    ensures { result ≡ Spec.judge_shootout kicking_side sides field ball restart ball_rested }
{
    let Some(side) = kicking_side else {
        return BallJudgment::NoJudgment;
    };
    let sign = geometry::side_to_sign(side, sides);
    let past_goal_line = is_past_goal_line(field, ball);
    let past_touchline = is_past_touchline(field, ball);
    let in_goal = is_in_goal(field, ball);
    let taken = is_shot_taken(restart);
    if past_goal_line & (sign * ball.x > 0.0) & in_goal {
        return BallJudgment::Goal(side);
    }
    if past_goal_line | past_touchline | (taken & ball_rested) {
        return BallJudgment::EndOfPenaltyShot;
    }
    BallJudgment::NoJudgment
}

// The judgment outside a penalty shoot-out, where the side is known that defends the half in which the ball is.
#[tactic(auto, unfolding(crate::specs::Ball::judge_half))]
fn judge_play(
    defending_side: Side,
    attacking_players: usize,
    field: FieldDimensions,
    ball: Ball,
    last_contact: Option<Side>,
    restart: Option<Restart>,
    invalid_goals_judged: bool,
) -> BallJudgment
    ensures { result ≡ Spec.judge_half field ball (Spec.judge_goal invalid_goals_judged restart (opponent defending_side) attacking_players) last_contact defending_side }
{
    let attacking_side = game::opponent(defending_side);
    let past_goal_line = is_past_goal_line(field, ball);
    let past_touchline = is_past_touchline(field, ball);
    let in_goal = is_in_goal(field, ball);
    let own = game::is_side(last_contact, defending_side);
    if past_goal_line {
        if in_goal {
            let goal = judge_goal(
                invalid_goals_judged,
                restart,
                attacking_side,
                attacking_players,
            );
            return goal.unwrap_or(BallJudgment::Goal(attacking_side));
        }
        if own {
            return BallJudgment::CornerKick(attacking_side);
        }
        return BallJudgment::GoalKick(defending_side);
    }
    if past_touchline {
        let side = last_contact.map_or(defending_side, game::opponent);
        return BallJudgment::ThrowIn(side);
    }
    BallJudgment::NoJudgment
}

// What is called when the ball has left the field, or a penalty shot is over. `home_players` and `away_players` count the players of
// each side on the field, and `ball_rested` tells whether the ball has come to rest since the kick.
#[tactic(auto, unfolding(crate::specs::Ball::ball_judgment))]
pub fn check_ball_out(
    game: Game,
    field: FieldDimensions,
    ball: Ball,
    last_contact: Option<Side>,
    restart: Option<Restart>,
    invalid_goals_judged: bool,
    ball_rested: bool,
    home_players: usize,
    away_players: usize,
) -> BallJudgment
    ensures { result ≡ Spec.ball_judgment game field ball last_contact restart invalid_goals_judged ball_rested home_players away_players }
{
    let state = game.state;
    let phase = game.phase;
    let kicking_side = game.kicking_side;
    let sides = game.sides;
    let playing = game::is_playing(state);
    let shootout = game::is_shootout(phase);
    if !playing | game.stopped {
        return BallJudgment::NoJudgment;
    }
    if shootout {
        return judge_shootout(kicking_side, sides, field, ball, restart, ball_rested);
    }
    let defending_side = defender_of(sides, ball.x > 0.0);
    let attacking_players = match defending_side {
        Side::Home => away_players,
        Side::Away => home_players,
    };
    judge_play(
        defending_side,
        attacking_players,
        field,
        ball,
        last_contact,
        restart,
        invalid_goals_judged,
    )
}
