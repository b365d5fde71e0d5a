// The call: one situation, one decision, or a refusal.
#![tactic(auto)]

mod call;
mod judges;

pub use call::{decide, decision_of};
pub use judges::{
    ball_judgment, kicking_player, leaving_players, team_excess, team_verdicts, wished_place,
};
