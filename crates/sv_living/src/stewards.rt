//! Whose reports a living world goes by.

/// Which client is the steward, where there is one, and whether its reports alone bring results.
#[derive(Clone, Copy, Debug, Drop, PartialEq, Eq)]
pub struct Stewards {
    pub steward: Option<u16>,
    pub authority: bool,
}
