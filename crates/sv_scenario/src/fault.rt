//! Why bytes are no scenario.

ghost use Rattle.std.specs.Prelude.{◌≡◌};

use std::alloc::{AllocError, AllocFailed};
use sv_lists::Text;
use sv_text::TextFault;
use sv_world::BadAction;

/// What is wrong at a place of a scenario file.
#[derive(Clone, Copy, Debug, Drop, PartialEq, Eq)]
pub enum ScenarioCause {
    /// More than 4,194,304 bytes.
    Size,
    /// The bytes are not UTF-8, or no JSON.
    Json,
    /// Another kind of value is wanted here; a number that is not whole; a step or turn of no form.
    Kind,
    /// A number or a length outside its limits, or too many sessions.
    Range,
    /// A key that is missing, or that has no meaning here.
    Key,
    /// An object of an interest or an observe that is not above the one before it.
    Order,
    /// The number of an object that the world lacks.
    Object,
    /// A `quit` that is not the last step.
    Last,
    /// The text of an action is refused, and where.
    Text(TextFault),
    /// The action is none of this world.
    Action(BadAction),
}

/// The first thing that is wrong, with the way to it: nothing for the whole, else `/` and a key or a place from 0 for each level.
#[derive(Debug, Drop)]
pub struct ScenarioFault {
    pub path: Text,
    pub cause: ScenarioCause,
}

/// Why no scenario was read.
#[derive(Debug, Drop)]
pub enum ReadFault {
    Scenario(ScenarioFault),
    /// Memory ran out, which says nothing of the bytes.
    Memory,
}

impl From<AllocError> for ReadFault {
    ghost use Rattle.sv_scenario.specs.declared.fault.ReadFault.TheVariants.{Memory};

    ghost from_gives = { λ _ e. e ≡ Memory };

    fn from(_error: AllocError) -> ReadFault {
        ReadFault::Memory
    }
}

impl<T: Drop> From<AllocFailed<T>> for ReadFault {
    ghost use Rattle.sv_scenario.specs.declared.fault.ReadFault.TheVariants.{Memory};

    ghost from_gives = { λ _ e. e ≡ Memory };

    fn from(_error: AllocFailed<T>) -> ReadFault {
        ReadFault::Memory
    }
}
