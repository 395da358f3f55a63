//! Why a session's loop stopped.

/// What a session's loop answers.
#[derive(Clone, Copy, Debug, PartialEq, Eq)]
pub enum SessionOut {
    /// A Leave was answered Bye.
    Left,

    /// The client's end closed, and every request that came whole was answered.
    Closed,

    /// A request came after the session was over.
    Ended,

    /// What came was no request.
    Malformed,

    /// The session had made all the requests that it may make.
    Spent,

    /// A read or a write failed.
    LinkFault,

    /// There was no memory.
    Memory,
}
