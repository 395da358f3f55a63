//! What a server keeps of each client that ever joined, which does not grow with what the client does.
#![tactic(auto)]

mod clients;
mod laws;
mod outcome;
mod row;

pub use clients::Clients;
pub use laws::rows_go_on_keeping;
pub use outcome::Outcome;
pub use row::ClientRow;
