//! Frames, typed from the format of messages.

pub const JOIN_0: &[u8] = &[0, 0, 0, 8, 0x01, 0, 0, 0, 0, 0, 1, 0];

pub const JOIN_1: &[u8] = &[0, 0, 0, 8, 0x01, 0, 1, 0, 0, 0, 1, 0];

/// Adds 1 to the number of object 0.
pub const SUBMIT_INC_0: &[u8] = &[
    0, 0, 0, 0x23, 0x06, 0, 0, 0, 1, 1, 0, 0, 0, 1, 0, 0, 0, 0, 0, 0, 0, 0, 1, 0x10, 0, 0, 0x22,
    0x21, 0, 0, 0x20, 0, 0, 0, 0, 0, 0, 0, 1,
];

/// Adds 1 to the number of object 1.
pub const SUBMIT_INC_1: &[u8] = &[
    0, 0, 0, 0x23, 0x06, 0, 0, 0, 1, 1, 0, 1, 0, 1, 0, 0, 0, 0, 0, 0, 0, 0, 1, 0x10, 0, 0, 0x22,
    0x21, 0, 0, 0x20, 0, 0, 0, 0, 0, 0, 0, 1,
];

pub const POLL: &[u8] = &[0, 0, 0, 1, 0x04];

/// Asks what object 0 is.
pub const OBSERVE_0: &[u8] = &[0, 0, 0, 6, 0x07, 1, 0, 0, 0, 0];

/// Asks what object 2 is, which there is not.
pub const OBSERVE_2: &[u8] = &[0, 0, 0, 6, 0x07, 1, 0, 2, 0, 0];

pub const LEAVE: &[u8] = &[0, 0, 0, 1, 0x05];

/// The relay of the first action, which adds 1 to object 0 and was made by client 0, with the base value 5 of that object.
pub const RELAY_INC_0: &[u8] = &[
    0, 0, 0, 0x3f, 0x89, 0, 0, 0, 1, 0, 0, 0, 0, 0, 1, 0, 0, 1, 0, 0, 0, 0, 0, 0, 0, 5, 1, 0, 0, 0,
    1, 0, 0, 0, 0, 0, 1, 1, 0, 0, 0, 1, 0, 0, 0, 0, 0, 0, 0, 0, 1, 0x10, 0, 0, 0x22, 0x21, 0, 0,
    0x20, 0, 0, 0, 0, 0, 0, 0, 1,
];

/// At position 0 object 0 has the base value 5.
pub const SEEN_0: &[u8] = &[
    0, 0, 0, 0x17, 0x8b, 0, 0, 0, 0, 0, 0, 0, 0, 0, 1, 0, 0, 1, 0, 0, 0, 0, 0, 0, 0, 5, 0,
];

/// At position 1, over commit 0, nothing is new.
pub const SEEN_NOTHING_AT_1: &[u8] = &[0, 0, 0, 0x0c, 0x8b, 0, 0, 0, 1, 0, 0, 0, 0, 0, 0, 0];

pub const IDLE: &[u8] = &[0, 0, 0, 1, 0x86];

/// Code 1, malformed.
pub const REFUSED_1: &[u8] = &[0, 0, 0, 6, 0x87, 1, 0, 0, 0, 0];

/// Code 2, not joined.
pub const REFUSED_2: &[u8] = &[0, 0, 0, 6, 0x87, 2, 0, 0, 0, 0];

/// Code 4, ended.
pub const REFUSED_4: &[u8] = &[0, 0, 0, 6, 0x87, 4, 0, 0, 0, 0];

/// Code 8, bad objects.
pub const REFUSED_8: &[u8] = &[0, 0, 0, 6, 0x87, 8, 0, 0, 0, 0];

/// Code 9, spent.
pub const REFUSED_9: &[u8] = &[0, 0, 0, 6, 0x87, 9, 0, 0, 0, 0];
