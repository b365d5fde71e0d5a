// Who is named when a team has more than three players in its own goal area.
#![tactic(auto)]

ghost use Rattle.std.specs.Prelude.{◌≡◌, ℕ, ◌<◌, get_or};
ghost use Rattle.lists.specs.Table.{table};
ghost use Rattle.keys.specs.Keys.{keys_below, no_key};
ghost use Rattle.excess.specs.Excess as Spec;
ghost use Rattle.excess.specs.ExcessKeys as Naming;

use game::{Margins, Player, PlayerList, Team};
use keys::NO_KEY;

// The most players of a team that may be in its own goal area.
const MAX_PLAYERS_IN_GOAL_AREA: usize = 3;

// The part of the key for those who are no newcomers.
const LATER: u64 = 0x20_0000_0000;

// The key of a player in the order of naming: a newcomer first, then the smaller margin, then the higher number.
fn naming_key(player: Player, margins: Option<Margins>, prefer_newcomers: bool, i: usize) -> u64
    requires { i < 20 }
    ensures value { result ≡ Naming.player_key prefer_newcomers player margins i }
    ensures small { Naming.Small player margins }
{
    let penalty = player.penalty;
    let unpenalized = game::is_unpenalized(penalty);
    let Some(m) = margins else {
        return NO_KEY;
    };
    let margin = m.own_goal_area;
    if unpenalized & (margin >= 0.0) {
        let order = floats::total_key(floats::bits(margin)) as u64;
        let key = order * 32 + (30 - i) as u64;
        if prefer_newcomers & !player.previously_inside {
            return key;
        }
        return key + LATER;
    }
    NO_KEY
}

// The keys of all players.
fn naming_keys(team: Team, margins: [Option<Margins>; 20], prefer_newcomers: bool) -> [u64; 20]
    ensures value { result ≡ table 20 (Naming.naming_key team margins prefer_newcomers) }
    ensures by_index { (k : ℕ) → k < 20 → Naming.SmallAt team margins k }
{
    let players = team.players;
    let mut out = [0u64; 20];
    for i in 0..20 {
        let player = players[i];
        let known = margins[i];
        out[i] = naming_key(player, known, prefer_newcomers, i);
    }
    out
}

// How many players have a key.
fn key_count(keys: &[u64; 20]) -> usize
    ensures { result ≡ keys_below (λ k. get_or keys.now k 0) no_key }
{
    let mut n: usize = 0;
    for i in 0..20 {
        n += (keys[i] < NO_KEY) as usize;
    }
    n
}

// The players that exceed the limit of three in the own goal area: newcomers first if they are preferred, then those closest to the
// border of the area, then those with higher numbers.
pub fn goal_area_excess(
    team: Team,
    margins: [Option<Margins>; 20],
    prefer_newcomers: bool,
) -> PlayerList
    ensures { result ≡ Spec.goal_area_excess team margins prefer_newcomers }
{
    let keys = naming_keys(team, margins, prefer_newcomers);
    let inside = key_count(&keys);
    let count = inside.saturating_sub(MAX_PLAYERS_IN_GOAL_AREA);
    let mut numbers = [0u8; 20];
    let mut from: u64 = 0;
    for k in 0..count {
        let key = keys::least_from(&keys, from);
        numbers[k] = (31 - key % 32) as u8;
        from = key + 1;
    }
    PlayerList { count, numbers }
}
