//! Frames of replies, typed from the format of messages. The world has one object of one number.

/// A Welcome with commit 0, and the object is 10.
pub const WELCOME: &[u8] = &[
    0, 0, 0, 18, 0x81, 0, 0, 0, 0, 0, 1, 0, 0, 1, 0, 0, 0, 0, 0, 0, 0, 10,
];

/// A Welcome with commit 1, and the object is 11.
pub const WELCOME_AFTER: &[u8] = &[
    0, 0, 0, 18, 0x81, 0, 0, 0, 1, 0, 1, 0, 0, 1, 0, 0, 0, 0, 0, 0, 0, 11,
];

/// A Relay for the action 1: before it another client's, which sets 20, and then the own one, which adds 1.
pub const RELAY_BEHIND_ANOTHER: &[u8] = &[
    0, 0, 0, 88, 0x89, 0, 0, 0, 1, 0, 0, 0, 0, 0, 0, 2, //
    0, 0, 0, 1, 0, 1, 0, 0, 0, 1, 1, 0, 0, 0, 1, 0, 0, 0, 0, 0, 0, 0, 0, 1, 0x10, 0, 0, 0x20, 0, 0,
    0, 0, 0, 0, 0, 20, //
    0, 0, 0, 2, 0, 0, 0, 0, 0, 1, 1, 0, 0, 0, 1, 0, 0, 0, 0, 0, 0, 0, 0, 1, 0x10, 0, 0, 0x22, 0x21,
    0, 0, 0x20, 0, 0, 0, 0, 0, 0, 0, 1,
];

/// A Relay for the action 1: the own one alone, at position 1.
pub const RELAY: &[u8] = &[
    0, 0, 0, 52, 0x89, 0, 0, 0, 1, 0, 0, 0, 0, 0, 0, 1, //
    0, 0, 0, 1, 0, 0, 0, 0, 0, 1, 1, 0, 0, 0, 1, 0, 0, 0, 0, 0, 0, 0, 0, 1, 0x10, 0, 0, 0x22, 0x21,
    0, 0, 0x20, 0, 0, 0, 0, 0, 0, 0, 1,
];

/// A Relay for the action 1: the own one alone, at position 1, which sets 10.
pub const RELAY_OF_TEN: &[u8] = &[
    0, 0, 0, 48, 0x89, 0, 0, 0, 1, 0, 0, 0, 0, 0, 0, 1, //
    0, 0, 0, 1, 0, 0, 0, 0, 0, 1, 1, 0, 0, 0, 1, 0, 0, 0, 0, 0, 0, 0, 0, 1, 0x10, 0, 0, 0x20, 0, 0,
    0, 0, 0, 0, 0, 10,
];

/// A Welcome with commit 0, to a world whose object has four numbers: it is 10, 0, 0, 1.
pub const WELCOME_OF_FOUR: &[u8] = &[
    0, 0, 0, 42, 0x81, 0, 0, 0, 0, 0, 1, 0, 0, 4, //
    0, 0, 0, 0, 0, 0, 0, 10, 0, 0, 0, 0, 0, 0, 0, 0, //
    0, 0, 0, 0, 0, 0, 0, 0, 0, 0, 0, 0, 0, 0, 0, 1,
];

/// A Relay for the action 1 there: the own one alone, at position 1, which adds 1 to the fourth number.
pub const RELAY_OF_FOURTH: &[u8] = &[
    0, 0, 0, 52, 0x89, 0, 0, 0, 1, 0, 0, 0, 0, 0, 0, 1, //
    0, 0, 0, 1, 0, 0, 0, 0, 0, 1, 1, 0, 0, 0, 1, 0, 0, 0, 0, 0, 0, 0, 0, 1, 0x10, 0, 3, 0x22, 0x21,
    0, 3, 0x20, 0, 0, 0, 0, 0, 0, 0, 1,
];

/// What was seen: the object is 30 at position 0.
pub const SEEN: &[u8] = &[
    0, 0, 0, 23, 0x8b, 0, 0, 0, 0, 0, 0, 0, 0, 0, 1, 0, 0, 1, 0, 0, 0, 0, 0, 0, 0, 30, 0,
];

/// A Dropped of the action 1.
pub const DROPPED: &[u8] = &[0, 0, 0, 13, 0x8a, 0, 0, 0, 1, 0, 0, 0, 5, 0, 0, 0, 0];

/// A Dropped of the action 2.
pub const DROPPED_ANOTHER: &[u8] = &[0, 0, 0, 13, 0x8a, 0, 0, 0, 2, 0, 0, 0, 5, 0, 0, 0, 0];

/// A Denied of the action 1, for the object.
pub const DENIED: &[u8] = &[0, 0, 0, 7, 0x8c, 0, 0, 0, 1, 0, 0];

/// A Settled of the action 1, at position 1.
pub const SETTLED: &[u8] = &[0, 0, 0, 9, 0x84, 0, 0, 0, 1, 0, 0, 0, 1];

pub const NOTED: &[u8] = &[0, 0, 0, 5, 0x85, 0, 0, 0, 0];

pub const IDLE: &[u8] = &[0, 0, 0, 1, 0x86];

pub const REFUSED: &[u8] = &[0, 0, 0, 6, 0x87, 4, 0, 0, 0, 0];

pub const BYE: &[u8] = &[0, 0, 0, 1, 0x88];

/// A payload that is no message.
pub const MALFORMED: &[u8] = &[0, 0, 0, 1, 0xff];

/// A length that is too great.
pub const TOO_LONG: &[u8] = &[0, 1, 0, 1];
