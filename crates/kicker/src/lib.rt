// Which player of the kicking team takes a kick-off or a penalty kick.
#![tactic(auto)]

ghost use Rattle.std.specs.Prelude.{◌≡◌, ◌<◌};
ghost use Rattle.kicker.specs.Kicker as Spec;
ghost use Rattle.kicker.specs.KickerKeys as Kicking;

use game::{FieldDimensions, Game, Margins, Player, PlayerPose, SetPlay, Side, Team};
use keys::NO_KEY;

// The distance to the mark of a player who may kick, by the set play. At a kick-off: over the halfway line, in the centre circle, off the mark. At a penalty kick: in
// the opponents' penalty area or near the mark, off the mark.
#[tactic(auto, unfolding(crate::specs::Kicker::kick_off_distance, crate::specs::Kicker::penalty_kick_distance))]
fn kicker_distance(
    set_play: SetPlay,
    field: FieldDimensions,
    sign: f32,
    pose: PlayerPose,
    margins: Margins,
) -> Option<f32>
    ensures { result ≡ Spec.kicker_distance set_play field sign pose margins }
{
    let team_x = sign * pose.x;
    let circle = field.center_circle_radius + pose.radius;
    let mark = field.mark_radius + pose.radius;
    match set_play {
        SetPlay::KickOff => {
            if team_x > -(field.line_width * 0.5 + pose.radius) {
                let distance = hypot::hypot(pose.x, pose.y);
                if (distance < circle) & (distance >= mark) {
                    return Some(distance);
                }
            }
            None
        }
        SetPlay::PenaltyKick => {
            let mark_x = field.length * 0.5 - field.penalty_mark_distance;
            let distance = hypot::hypot(team_x - mark_x, pose.y);
            let inside = margins.opponent_penalty_area > 0.0;
            ((inside | (distance < circle)) & (distance >= mark)).then_some(distance)
        }
        _ => None,
    }
}

// The key of the player with the number i + 1 in the order of kickers: the nearer first, then the lower number. None for one who is penalised or absent.
fn kicker_key(
    set_play: SetPlay,
    field: FieldDimensions,
    sign: f32,
    player: Player,
    margins: Option<Margins>,
    i: usize,
) -> u64
    requires { i < 20 }
    ensures value { result ≡ Kicking.distance_key (Spec.player_distance set_play field sign player margins) i }
    ensures small { Kicking.Small (Spec.player_distance set_play field sign player margins) }
{
    if !game::is_unpenalized(player.penalty) {
        return NO_KEY;
    }
    let (Some(p), Some(m)) = (player.pose, margins) else {
        return NO_KEY;
    };
    let Some(d) = kicker_distance(set_play, field, sign, p, m) else {
        return NO_KEY;
    };
    let order = floats::total_key(floats::bits(d)) as u64;
    order * 32 + (i + 1) as u64
}

// The player of the kicking team that is allowed to take a kick-off or a penalty kick: the one closest to the mark, but not on it, in the
// respective area, and of those as close the one with the lowest number.
pub fn determine_kicking_player(
    game: Game,
    team: Team,
    field: FieldDimensions,
    margins: [Option<Margins>; 20],
    side: Side,
) -> Option<u8>
    ensures { result ≡ Spec.determine_kicking_player game team field margins side }
{
    let sides = game.sides;
    let set_play = game.set_play;
    let sign = geometry::side_to_sign(side, sides);
    let players = team.players;
    let mut best: u64 = NO_KEY;
    for i in 0..20 {
        let player = players[i];
        let known = margins[i];
        let key = kicker_key(set_play, field, sign, player, known, i);
        best = keys::lower_from(0, key, best);
    }
    if best < NO_KEY {
        return Some((best % 32) as u8);
    }
    None
}
