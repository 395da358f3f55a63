//! Tests of the server that tolerates one lying client, and of the call that runs a scenario over it, by public calls alone.

mod calls;
mod faults;
mod lies;
mod server;
mod texts;
mod words;
