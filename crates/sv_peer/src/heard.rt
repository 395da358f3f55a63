//! What comes of a connection.
use sv_wire::Request;

/// What came next.
#[derive(Drop)]
pub enum Heard {
    /// A request. It is `Bad` where a payload is none, or is too long.
    Request(Request),
    /// A key was shown, of which this is the digest.
    Hello([u8; 32]),
    /// Nothing whole has come.
    NotYet,
    /// Nothing more will come.
    Closed,
    /// There was no memory for it. The connection can only be closed.
    Memory,
}
