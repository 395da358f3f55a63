//! The laws of whole runs: what holds of any journal and of the clients' traces that fit it.
#![tactic(auto)]

mod deliveries;
mod honest;
mod journals;
mod outcomes;
mod played;
mod records;
mod served;
mod told;
mod truth;

pub use deliveries::lawful_deliveries_make_values_serial;
pub use honest::{honest_clients_are_never_refused, traces_are_honest_clients};
pub use journals::legal_journals_make_lawful_deliveries;
pub use outcomes::actions_have_outcomes;
pub use played::Played;
pub use records::runs_leave_full_records;
pub use served::{
    honest_reports_are_serial, served_actions_have_outcomes, served_clients_are_never_refused,
    served_journals_make_lawful_deliveries, served_values_are_serial,
};
pub use told::{sessions_are_told_their_replies, told_clients_report_serial_results};
pub use truth::{committed_world_is_serial, replicas_equal_serial_execution};
