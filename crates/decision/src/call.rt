// A decision: every item of document 01 for one situation, or the refusal.
ghost use Rattle.std.specs.Prelude.{◌≡◌};
ghost use Rattle.decision.specs.Decision as Spec;

use game::{
    Ball, Decision, Earlier, FieldDimensions, Game, Margins, Side, SideDecision, Situation, Team,
};
use refusal::Refusal;

// The items of one side, by its margins.
fn team_decision(
    game: Game,
    field: FieldDimensions,
    ball: Ball,
    side: Side,
    team: Team,
    margins: [Option<Margins>; 20],
) -> SideDecision
    ensures { result ≡ Spec.team_decision game field ball side team margins }
{
    let verdicts = super::judges::team_verdicts(game, field, ball, side, team, margins);
    let excess = super::judges::team_excess(game, team, margins);
    let leaving = super::judges::leaving_players(team, field);
    let motion = motion::check_motion(team);
    let moved = motion.moved;
    let references = motion.references;
    SideDecision {
        verdicts,
        excess,
        leaving,
        moved,
        references,
    }
}

// The decision on a situation, item by item. Whether the situation is to be refused is asked before.
pub fn decision_of(s: Situation, earlier: Earlier<'_>) -> Decision
    ensures { result ≡ Spec.decision_of s earlier.entry.xs.now earlier.entry.ys.now }
{
    let game = s.game;
    let field = s.field;
    let b = s.ball;
    let home_team = s.home;
    let away_team = s.away;
    let home_seen = seen::side_seen(game, field, Side::Home, home_team);
    let away_seen = seen::side_seen(game, field, Side::Away, away_team);
    let home_margins = home_seen.margins;
    let away_margins = away_seen.margins;
    let home = team_decision(game, field, b, Side::Home, home_team, home_margins);
    let away = team_decision(game, field, b, Side::Away, away_team, away_margins);
    let kicker = super::judges::kicking_player(
        game,
        home_team,
        away_team,
        field,
        home_margins,
        away_margins,
    );
    let ball = super::judges::ball_judgment(s, home_seen.on_field, away_seen.on_field);
    let place = super::judges::wished_place(s, earlier);
    Decision {
        home,
        away,
        kicker,
        ball,
        place,
    }
}

// One situation, one decision, or its refusal.
pub fn decide(s: Situation, earlier: Earlier<'_>) -> Result<Decision, Refusal>
    ensures { result ≡ Spec.answered (Spec.answer_of s earlier.entry.xs.now earlier.entry.ys.now) }
{
    refusals::refusal(s, earlier)?;
    Ok(decision_of(s, earlier))
}
