//! The ways to speak.

/// How a connection is spoken.
#[derive(Clone, Copy, Debug, Drop, PartialEq, Eq)]
pub enum Manner {
    /// No byte came yet.
    Unknown,
    /// Frames.
    Frames,
    /// HTTP, up to an upgrade.
    Http,
    /// A WebSocket, after its upgrade.
    Socket,
    /// Nothing more is taken.
    Closed,
}
