//! What was asked of a folder, as a double in memory keeps it.

/// A change of a folder, or a sync.
#[derive(Drop)]
pub(crate) enum AskedCall {
    Make(String, usize),
    Grow(String, usize),
    Write(String, usize, Vec<u8>),
    Truncate(String, usize),
    Rename(String, String),
    Remove(String),
    Sync(String),
    SyncFolder,
}

/// What was asked, and whether it was answered Ok.
#[derive(Drop)]
pub(crate) struct KeptCall {
    pub(crate) call: AskedCall,
    pub(crate) done: bool,
}
