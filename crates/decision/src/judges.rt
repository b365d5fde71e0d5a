// What the judges and the places are asked of a situation, item by item.
ghost use Rattle.std.specs.Prelude.{◌≡◌};
ghost use Rattle.decision.specs.Decision as Spec;

use game::{
    Ball, BallJudgment, Earlier, FieldDimensions, Game, KickingPlayer, Margins, Placement,
    PlayerList, Positioning, Side, Situation, Team, Wish,
};

// The verdicts on a side's players by their places, Legal too. Most of a game has no set play, and then no player is looked at.
pub fn team_verdicts(
    game: Game,
    field: FieldDimensions,
    ball: Ball,
    side: Side,
    team: Team,
    margins: [Option<Margins>; 20],
) -> [Positioning; 20]
    ensures { result ≡ Spec.team_verdicts game field ball side team margins }
{
    let mut out = [Positioning::Legal; 20];
    let unjudged = !positioning::is_judging(game);
    if unjudged {
        return out;
    }
    let conditions = positioning::team_conditions(game, field, ball, side, team, margins);
    for i in 0..20 {
        out[i] = conditions::verdict_of(conditions[i]);
    }
    out
}

// The numbers of a team's players that leave the field, each by its own allowance, ascending.
#[tactic(auto, unfolding(crate::specs::Decision::leaving_players))]
pub fn leaving_players(team: Team, field: FieldDimensions) -> PlayerList
    ensures { result ≡ Spec.leaving_players team field }
{
    let players = team.players;
    let mut flags = [false; 20];
    for i in 0..20 {
        let player = players[i];
        flags[i] = geometry::is_leaving_the_field(player, field, player.allowance);
    }
    game::numbers_where(flags)
}

// A list of no player.
#[tactic(auto, unfolding(crate::specs::Decision::empty_list, game::specs::Players::listed, lists::specs::Put::fronted))]
pub fn empty_list() -> PlayerList
    ensures { result ≡ Spec.empty_list }
{
    let numbers = [0u8; 20];
    PlayerList { count: 0, numbers }
}

// The players that are too many in their own goal area, none where it is not asked: outside the shoot-out, in Set or Playing.
// Newcomers come first in Playing only.
pub fn team_excess(game: Game, team: Team, margins: [Option<Margins>; 20]) -> PlayerList
    ensures { result ≡ Spec.team_excess game team margins }
{
    let playing = game::is_playing(game.state);
    let asked = positioning::is_set_or_playing(game);
    if asked {
        return excess::goal_area_excess(team, margins, playing);
    }
    empty_list()
}

// The kicking player, none without a kicking side.
#[tactic(auto, unfolding(crate::specs::Decision::kicking_player))]
pub fn kicking_player(
    game: Game,
    home: Team,
    away: Team,
    field: FieldDimensions,
    home_margins: [Option<Margins>; 20],
    away_margins: [Option<Margins>; 20],
) -> Option<KickingPlayer>
    ensures { result ≡ Spec.kicking_player game home away field home_margins away_margins }
{
    let side = game.kicking_side?;
    let number = match side {
        Side::Home => {
            kicker::determine_kicking_player(game, home, field, home_margins, Side::Home)
        }
        Side::Away => {
            kicker::determine_kicking_player(game, away, field, away_margins, Side::Away)
        }
    };
    Some(KickingPlayer {
        side,
        number: number?,
    })
}

// What is called for the ball, where so many players of Home and of Away are on the field.
#[tactic(auto, unfolding(crate::specs::Decision::ball_called_among))]
pub fn ball_judgment(s: Situation, home_players: usize, away_players: usize) -> BallJudgment
    ensures { result ≡ Spec.ball_called_among s home_players away_players }
{
    let game = s.game;
    let field = s.field;
    let ball = s.ball;
    let last_contact = s.last_contact;
    let restart = s.restart;
    ball::check_ball_out(
        game,
        field,
        ball,
        last_contact,
        restart,
        s.invalid_goals_judged,
        s.ball_rested,
        home_players,
        away_players,
    )
}

// The place of a player that is selected for a penalty shot. A function of its own, so that a wish for nothing copies no team.
fn shot_place(s: Situation, side: Side, number: u8) -> Placement
    ensures { result ≡ Spec.shot_place_of s side number }
{
    let game = s.game;
    let field = s.field;
    let team = game::team_of(s, side);
    let player = game::player_numbered(team, number);
    places::place_for_penalty_shot(game, field, side, number, player)
}

// The place of a side's goalkeeper in a penalty kick.
fn goalkeeper_place(s: Situation, side: Side) -> Placement
    ensures { result ≡ Spec.goalkeeper_place_of s side }
{
    let game = s.game;
    let field = s.field;
    let team = game::team_of(s, side);
    places::place_penalty_goalkeeper(game, field, side, team)
}

// The place wished for, or none.
#[tactic(auto, unfolding(crate::specs::Decision::wished_place))]
pub fn wished_place(s: Situation, earlier: Earlier<'_>) -> Placement
    ensures { result ≡ Spec.wished_place s earlier.entry.xs.now earlier.entry.ys.now }
{
    let game = s.game;
    let field = s.field;
    let wish = s.wish;
    match wish {
        Wish::Nothing => Placement::NoPlace,
        Wish::BallAtRestart => {
            let ball = s.ball;
            places::place_ball_at_restart(game, field, ball)
        }
        Wish::BallInSet => places::place_ball_in_set(game, field),
        Wish::ForPenalty(side, number) => {
            let distance = s.penalty_placement_distance;
            let home = s.home;
            let away = s.away;
            penalty::place_for_penalty(game, field, distance, home, away, earlier, side, number)
        }
        Wish::ForPenaltyShot(side, number) => shot_place(s, side, number),
        Wish::Goalkeeper(side) => goalkeeper_place(s, side),
    }
}
