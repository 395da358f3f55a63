//! The result of an action.

use sv_lists::List;
use sv_world::Value;

/// The result of an action on the values of its reads.
#[derive(Debug, Drop)]
pub struct Effect {
    /// Some arithmetic left the numbers of 64 bits, or divided by zero. `writes` are then the values from before.
    pub void: bool,
    /// One value for each written object, in order.
    pub writes: List<Value>,
}
