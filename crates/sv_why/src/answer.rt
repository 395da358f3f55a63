//! Why an object has its value.
use sv_lists::List;
use sv_world::Value;

/// Why an object has its value at a position.
#[derive(Debug, Drop)]
pub struct Why {
    /// The positions of the actions that the value comes from, ascending. Where no action up to the position wrote the object there are none.
    pub positions: List<u32>,
    /// The value that these actions alone give the object.
    pub value: Value,
}
