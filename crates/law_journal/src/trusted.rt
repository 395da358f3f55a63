//! Laws of living worlds that go by results of the serial execution alone, entry by entry: of the runs before they ask only that those results are.
ghost use Rattle.law_journal.specs.Trusted.{OthersBringNothing, SerialResultsMakeSerialWorlds, SerialResultsStay, StewardsJoin, UnbegunIsNobodys, WorldsBeginSerial};

use law_system::served_values_are_serial;
use sv_journal::living_worlds_are_served;

/// A living world that goes by results of the serial execution alone goes on so with each entry but one whose session's reports count and which
/// reports another result. Where the steward's reports alone count, that is one of the steward; and what it reports of a reply is serial, if it
/// got all that its session was told (`told_clients_report_serial_results`).
///
/// A world begins so, and as long as it goes on so its committed world is that of the serial execution.
pub fn serial_results_stay()
    ensures stay { SerialResultsStay }
    ensures others { OthersBringNothing }
    ensures begin { WorldsBeginSerial }
    ensures world { SerialResultsMakeSerialWorlds }
{
    living_worlds_are_served();
    served_values_are_serial();
}

/// A session is the steward's by a Join of its own that names the steward, and by nothing else.
pub fn stewards_sessions_are_joined()
    ensures join { StewardsJoin }
    ensures fresh { UnbegunIsNobodys }
{}
