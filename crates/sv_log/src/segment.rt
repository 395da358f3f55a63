//! The segment that is appended to.
use super::folder::Folder;

/// A file of lines that is appended to.
///
/// Lines are written over zeros that were synced before: what a crash loses of a write is a zero, and the lines before the first zero are
/// lines that were written.
#[derive(Drop)]
pub struct Segment<F: Folder> {
    pub folder: F,
    pub name: String,
    /// How many bytes of the text are synced.
    pub synced: usize,
    /// How many bytes the text has.
    pub length: usize,
    /// How many bytes the file has.
    pub size: usize,
    /// How many zeros more than it needs it adds behind a file that is too short.
    pub spare: usize,
}
