//! The limits of a client beside those of its messages.

/// The actions that a client makes that writes its trace down.
pub const MOST_MADE: u32 = 65_536;

/// The sessions that a client begins that keeps no trace, and the actions that it makes: a message has room for no greater number.
pub const MOST_NUMBERS: u32 = 4_294_967_295;
