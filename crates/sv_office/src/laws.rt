//! Laws of what connections are told, and of worlds that nobody has asked anything yet. Each is an `ensures` of a function that does nothing.
ghost use Rattle.sv_office.specs.Laws.{AllStay, NewWorldsAreSerial, OthersStay};

use law_journal::serial_results_stay;

/// What a connection was told stays what its entries say, whatever comes of another connection and of the steward.
pub fn others_stay_served()
    ensures { OthersStay }
{}

/// What a connection was told stays what its entries say, while the steward reports.
pub fn all_stay_served()
    ensures { AllStay }
{}

/// A world in which nobody has asked anything is serial.
pub fn new_worlds_are_serial()
    ensures { NewWorldsAreSerial }
{
    serial_results_stay();
}
