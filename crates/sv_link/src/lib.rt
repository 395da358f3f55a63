//! Links between a client and the server, by which their threads exchange bytes; and the crews that run these threads.
#![tactic(auto)]

mod book;
mod channel;
mod crews;
mod ends;
mod gates;
mod link;
mod log;
mod nets;
mod pairs;
mod pipe;
mod pipe_end;
mod pipe_net;
mod side;
mod starting;
mod tcp;
mod thread_crew;

pub use book::Book;
pub use crews::{AllRan, Crew, Job, Ran, StartRefused};
pub use ends::{End, EndRead, EndWrote, Sent, send_all};
pub use gates::{Gate, HoldGate, OpenGate};
pub use link::MemLink;
pub use log::EndLog;
pub use nets::{Net, Pair, Settle};
pub use pipe::Pipe;
pub use pipe_end::PipeEnd;
pub use pipe_net::{PipeNet, copied_plan};
pub use side::Side;
pub use tcp::{TcpEnd, TcpNet};
pub use thread_crew::{FewCrew, ThreadCrew};
