//! Frames of replies, typed from the format of messages.

/// Commit 0, and object 0 with the value 5.
pub const WELCOME: &[u8] = &[
    0, 0, 0, 18, 0x81, 0, 0, 0, 0, 0, 1, 0, 0, 1, 0, 0, 0, 0, 0, 0, 0, 5,
];

/// The relay of the action of client 0 that adds 1 to object 0, at position 1, with the sequence number 1 and commit 0, and no value.
pub const RELAY: &[u8] = &[
    0, 0, 0, 0x34, 0x89, 0, 0, 0, 1, 0, 0, 0, 0, 0, 0, 1, 0, 0, 0, 1, 0, 0, 0, 0, 0, 1, 1, 0, 0, 0,
    1, 0, 0, 0, 0, 0, 0, 0, 0, 1, 0x10, 0, 0, 0x22, 0x21, 0, 0, 0x20, 0, 0, 0, 0, 0, 0, 0, 1,
];

/// The same with commit 1.
pub const LATE_RELAY: &[u8] = &[
    0, 0, 0, 0x34, 0x89, 0, 0, 0, 1, 0, 0, 0, 1, 0, 0, 1, 0, 0, 0, 1, 0, 0, 0, 0, 0, 1, 1, 0, 0, 0,
    1, 0, 0, 0, 0, 0, 0, 0, 0, 1, 0x10, 0, 0, 0x22, 0x21, 0, 0, 0x20, 0, 0, 0, 0, 0, 0, 0, 1,
];

/// The same with commit 0 and the sequence number 2.
pub const OTHER_RELAY: &[u8] = &[
    0, 0, 0, 0x34, 0x89, 0, 0, 0, 2, 0, 0, 0, 0, 0, 0, 1, 0, 0, 0, 1, 0, 0, 0, 0, 0, 1, 1, 0, 0, 0,
    1, 0, 0, 0, 0, 0, 0, 0, 0, 1, 0x10, 0, 0, 0x22, 0x21, 0, 0, 0x20, 0, 0, 0, 0, 0, 0, 0, 1,
];

/// What is seen of object 0 at position 0: its value 5, and no items.
pub const SEEN: &[u8] = &[
    0, 0, 0, 0x17, 0x8b, 0, 0, 0, 0, 0, 0, 0, 0, 0, 1, 0, 0, 1, 0, 0, 0, 0, 0, 0, 0, 5, 0,
];

/// The action with the sequence number 1 is denied, for object 0.
pub const DENIED: &[u8] = &[0, 0, 0, 7, 0x8c, 0, 0, 0, 1, 0, 0];

pub const NOTED_0: &[u8] = &[0, 0, 0, 5, 0x85, 0, 0, 0, 0];

pub const NOTED_1: &[u8] = &[0, 0, 0, 5, 0x85, 0, 0, 0, 1];

/// A kind of an older version.
pub const OLD_KIND: &[u8] = &[0, 0, 0, 1, 0x82];

/// A Welcome that ends after its kind.
pub const SHORT_WELCOME: &[u8] = &[0, 0, 0, 1, 0x81];

/// A length over the limit.
pub const TOO_LONG: &[u8] = &[0, 1, 0, 1];

/// Two bytes of a frame's length.
pub const PART: &[u8] = &[0, 0];
