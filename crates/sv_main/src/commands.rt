//! The top calls of the program.

/// A top call of the program.
#[derive(Clone, Copy, Debug, Drop, PartialEq, Eq)]
pub enum TopCall {
    /// It plays, replays, or makes a load, and tells words that it does not know.
    Run,

    /// It prints what the looks of a scenario's scheduled run were told.
    Looks,

    /// It runs a scenario over a server that trusts no client alone, with a client that lies or with none.
    Witness,

    /// It serves a scenario's sessions to other programs.
    Serve,

    /// It serves a living world until it is told to stop.
    Host,

    /// It plays one client over another program's server.
    Join,

    /// It checks a report, or tells why an object has its value in one, or the world at its end.
    Check,
}
