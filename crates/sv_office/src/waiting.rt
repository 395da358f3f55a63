//! How a held Observe stands.

/// How a held Observe stands.
#[derive(Clone, Copy, Debug, Drop, PartialEq, Eq)]
pub enum HeldObserve {
    /// It waits until this time, or until there is news.
    Until(u64),
    /// It is to be answered now.
    Due,
    /// There is none.
    Nothing,
}
