//! Laws of the values of servers that go by some clients' reports: these clients alone need to be honest.
ghost use Rattle.law_journal.specs.Stewarded.{HonestClientsAreEnough, HonestStewardIsEnough};

use law_system::{
    honest_reports_are_serial, served_clients_are_never_refused, served_values_are_serial,
};
use sv_journal::living_worlds_are_served;

/// Where all clients are honest, a server's values are those of the serial execution, whatever results it keeps. So they are in a living world,
/// whatever its stewardship.
pub fn honest_clients_are_enough()
    ensures { HonestClientsAreEnough }
{
    honest_reports_are_serial();
    served_values_are_serial();
    served_clients_are_never_refused();
}

/// An honest steward is enough where its reports alone count: a living world's values are those of the serial execution then, whatever other
/// clients report, and no honest client is refused.
pub fn an_honest_steward_is_enough()
    ensures { HonestStewardIsEnough }
{
    living_worlds_are_served();
    honest_reports_are_serial();
    served_values_are_serial();
    served_clients_are_never_refused();
}
