//! Views of objects.
use sv_world::Value;

/// What a client sees of an object.
#[derive(Clone, Copy, Debug)]
pub enum View<'a> {
    Known(&'a Value),
    Unknown,
}
