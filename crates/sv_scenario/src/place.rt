//! Where a fault stands: its path is made from inside out.

ghost use Rattle.std.specs.Prelude.{◌≡◌, [], decimal, string_bytes, IfOk};
ghost use Rattle.sv_scenario.specs.Faults.{inside, IsInside, IsAtKey};

use crate::{ReadFault, ScenarioCause, ScenarioFault};
use std::alloc::{AllocError, Global};
use sv_lists::Text;

/// The value that is read is itself at fault. It takes no memory.
pub fn refuse(alloc: Global, cause: ScenarioCause) -> ReadFault
    ensures { result ≡ ReadFault.Scenario (record { path = []; cause = cause }) }
{
    let path = Text::from_string(String::new(alloc));
    ReadFault::Scenario(ScenarioFault { path, cause })
}

fn inside(alloc: Global, key: &str, fault: &ScenarioFault) -> Result<ScenarioFault, AllocError>
    ensures { IfOk result (λ f. f ≡ inside key.now fault.now) }
{
    let mut path = String::new(alloc);
    path.push_str("/")?;
    path.push_str(key)?;
    path.push_str(fault.path.as_str())?;
    Ok(ScenarioFault {
        path: Text::from_string(path),
        cause: fault.cause,
    })
}

/// A fault of the value at a key.
pub(crate) fn moved(alloc: Global, key: &str, fault: ReadFault) -> ReadFault
    ensures { IsInside key.now fault result }
{
    match fault {
        ReadFault::Memory => ReadFault::Memory,
        ReadFault::Scenario(fault) => match inside(alloc, key, &fault) {
            Ok(outer) => ReadFault::Scenario(outer),
            Err(_) => ReadFault::Memory,
        },
    }
}

/// What was read of the value at a key.
pub fn at_key<T: Drop>(alloc: Global, key: &str, read: Result<T, ReadFault>) -> Result<T, ReadFault>
    ensures { IsAtKey key.now read result }
{
    match read {
        Ok(value) => Ok(value),
        Err(fault) => Err(moved(alloc, key, fault)),
    }
}

fn place_text(alloc: Global, place: usize) -> Result<String, AllocError>
    ensures { IfOk result (λ s. string_bytes s ≡ decimal place) }
{
    format!(in alloc; "{place}")
}

fn moved_to(alloc: Global, place: usize, fault: ReadFault) -> ReadFault
    ensures { IsInside (decimal place) fault result }
{
    match place_text(alloc, place) {
        Ok(key) => moved(alloc, &key, fault),
        Err(_) => ReadFault::Memory,
    }
}

/// What was read of the value at a place.
pub fn at_place<T: Drop>(
    alloc: Global,
    place: usize,
    read: Result<T, ReadFault>,
) -> Result<T, ReadFault>
    ensures { IsAtKey (decimal place) read result }
{
    match read {
        Ok(value) => Ok(value),
        Err(fault) => Err(moved_to(alloc, place, fault)),
    }
}

/// A key that is missing, or that has no meaning here, is at fault.
pub(crate) fn refuse_key(alloc: Global, key: &str) -> ReadFault
    ensures { IsInside key.now (ReadFault.Scenario (record { path = []; cause = ScenarioCause.Key })) result }
{
    moved(alloc, key, refuse(alloc, ScenarioCause::Key))
}
