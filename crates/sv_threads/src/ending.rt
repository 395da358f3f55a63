//! How a call of the program ends whose run on threads failed.
ghost use Rattle.std.specs.Prelude.{◌≡◌};
ghost use Rattle.sv_threads.specs.Endings.{ending_of_fault};

use crate::outcome::PlayFault;
use sv_ending::Ending;

/// How a call of the program ends where its run on threads failed.
pub fn ending_of_fault(fault: PlayFault) -> Ending
    ensures { result ≡ ending_of_fault fault }
{
    match fault {
        PlayFault::Start => Ending::Start,
        PlayFault::Link => Ending::Link,
        PlayFault::Memory => Ending::Memory,
    }
}
