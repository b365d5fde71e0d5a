// How many players a team has on the field.
#![tactic(auto)]

ghost use Rattle.std.specs.Prelude.{◌≡◌};
ghost use Rattle.counts.specs.Counts as Spec;

use game::{Player, Team};

// Unpenalised and present.
fn is_on_field(player: Player) -> bool
    ensures { result ≡ Spec.is_on_field player }
{
    let penalty = player.penalty;
    let pose = player.pose;
    let unpenalized = game::is_unpenalized(penalty);
    let present = game::is_present(pose);
    unpenalized & present
}

// The number of players of a team that are present and not penalised.
pub fn players_on_field(team: Team) -> usize
    ensures { result ≡ Spec.players_on_field team }
{
    let players = team.players;
    let mut n: usize = 0;
    for i in 0..20 {
        if is_on_field(players[i]) {
            n += 1;
        }
    }
    n
}
