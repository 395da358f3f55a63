//! Laws of journals, of the replies that clients take, and of the rules that scenarios give: facts that readers take for granted.
#![tactic(auto)]

mod commits;
mod cuts;
mod opening;
mod relays;
mod stewards;
mod trusted;

pub use commits::{commit_is_the_greatest, journals_keep_what_they_have};
pub use cuts::{older_cuts_have_items, what_is_seen_never_goes_back};
pub use opening::scenarios_open_within_limits;
pub use relays::{
    relays_bring_what_is_asked, relays_of_zero_answer_polls, sessions_in_order_get_items,
};
pub use stewards::{an_honest_steward_is_enough, honest_clients_are_enough};
pub use trusted::{serial_results_stay, stewards_sessions_are_joined};
