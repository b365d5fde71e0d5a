// Where a player stands, by the dimensions of the field.
#![tactic(auto)]

ghost use Rattle.std.specs.Prelude.{◌≡◌};
ghost use Rattle.geometry.specs.Geometry as Spec;

use floats::PI;
use game::{FieldDimensions, Margins, Player, PlayerPose, Side, SideMapping, Team};

// The factor between global x and a team's x, in which the own goal is at negative x. The left goal is at positive global x.
pub fn side_to_sign(side: Side, side_mapping: SideMapping) -> f32
    ensures { result ≡ Spec.side_to_sign side side_mapping }
{
    if (side == Side::Home) == (side_mapping == SideMapping::HomeDefendsLeftGoal) {
        -1.0
    } else {
        1.0
    }
}

// The angle less whole turns, so that it lies between -pi and pi.
pub fn normalize_angle(angle: f32) -> f32
    ensures { result ≡ Spec.normalize_angle angle }
{
    floats::rem_euclid(angle + PI, 2.0 * PI) - PI
}

// How far a player is inside the strip of this width about the x axis.
fn strip_margin(width: f32, pose: PlayerPose) -> f32
    ensures { result ≡ Spec.strip_margin width pose }
{
    let edge = width * 0.5 + pose.radius;
    floats::min(edge - pose.y, edge + pose.y)
}

// The margins of one pose.
pub fn margins_of(pose: PlayerPose, field: FieldDimensions, sign: f32) -> Margins
    ensures { result ≡ Spec.margins_of pose field sign }
{
    let team_x = sign * pose.x;
    let r = pose.radius;
    let y_goal_area = strip_margin(field.goal_area_width, pose);
    let y_penalty_area = strip_margin(field.penalty_area_width, pose);
    let x_own_goal_area = (-field.length * 0.5 + field.goal_area_length + r) - team_x;
    let x_own_penalty_area = (-field.length * 0.5 + field.penalty_area_length + r) - team_x;
    let x_opponent_penalty_area = team_x - (field.length * 0.5 - field.penalty_area_length - r);
    let own_goal_area = floats::min(y_goal_area, x_own_goal_area);
    let own_penalty_area = floats::min(y_penalty_area, x_own_penalty_area);
    let opponent_penalty_area = floats::min(y_penalty_area, x_opponent_penalty_area);
    Margins {
        own_goal_area,
        own_penalty_area,
        opponent_penalty_area,
    }
}

// The margins of a player, none where it is absent.
fn player_margins(player: Player, field: FieldDimensions, sign: f32) -> Option<Margins>
    ensures { result ≡ Spec.player_margins player field sign }
{
    player.pose.map(|pose| margins_of(pose, field, sign))
}

// The margins of a side's players, none for an absent one.
pub fn compute_margins(team: Team, field: FieldDimensions, sign: f32) -> [Option<Margins>; 20]
    ensures { result ≡ Spec.compute_margins team field sign }
{
    let players = team.players;
    let mut out = [None; 20];
    for i in 0..20 {
        out[i] = player_margins(players[i], field, sign);
    }
    out
}

// Whether no part of a player is on the field of play.
pub fn is_outside_field(pose: PlayerPose, field: FieldDimensions) -> bool
    ensures { result ≡ Spec.is_outside_field pose field }
{
    let x = floats::abs(pose.x);
    let y = floats::abs(pose.y);
    (x > field.length * 0.5 + pose.radius) | (y > field.width * 0.5 + pose.radius)
}

// How far the near edge of a player is beyond the edge of the carpet, below 0 if it is inside. The original measures at the centre; the radius is taken from what it gives, with
// a rounding of its own.
pub fn carpet_excess(pose: PlayerPose, field: FieldDimensions) -> f32
    ensures { result ≡ Spec.carpet_excess pose field }
{
    let r = pose.radius;
    let x = floats::abs(pose.x) - (field.length * 0.5 + field.border_strip_width);
    let y = floats::abs(pose.y) - (field.width * 0.5 + field.border_strip_width);
    floats::max(x, y) - r
}

// Whether the near edge of an unpenalised player is off the carpet by more than the allowance.
pub fn is_leaving_the_field(player: Player, field: FieldDimensions, allowance: f32) -> bool
    ensures { result ≡ Spec.is_leaving_the_field player field allowance }
{
    let unpenalized = game::is_unpenalized(player.penalty);
    player.pose.is_some_and(|pose| {
        let excess = carpet_excess(pose, field);
        unpenalized & (excess > allowance)
    })
}

// Whether a player is between the posts of its own goal and over the middle of the goal line.
pub fn is_on_own_goal_line(team_x: f32, pose: PlayerPose, field: FieldDimensions) -> bool
    ensures { result ≡ Spec.is_on_own_goal_line team_x pose field }
{
    let y = floats::abs(pose.y);
    let behind = floats::abs(team_x + (field.length * 0.5 - field.line_width * 0.5));
    (y <= field.goal_width * 0.5) & (behind <= pose.radius)
}
