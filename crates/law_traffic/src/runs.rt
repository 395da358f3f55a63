//! Laws of whole runs.
ghost use Rattle.law_traffic.specs.Runs.{NoClientIsShut, NextRepliesAreTaken, PlayersComeToTheirEnds, RunsLeaveRecords, RunsLeaveFullRecords, RunsMoveTheirTraffic, UncutSessionsHaveNoFault};

use law_asked::replies_are_messages;
use law_system::{honest_clients_are_never_refused, runs_leave_full_records};
use sv_journal::{full_replies_stay, legal_relays_name_accepted};

/// What is left of a run's threads is its record: the journal fits the traces, each session's transcript has the traffic of both, and where
/// each player stopped for its script, or because its server failed it, the record is full.
///
/// It holds for every order in which the threads took their turns, every cutting of the bytes, and players that stopped early. What is
/// asked is what the sessions' loops and the players promise, that each pair of ends matched, and that nothing was out of memory.
pub fn threaded_runs_leave_records()
    ensures record { RunsLeaveRecords }
    ensures full { RunsLeaveFullRecords }
    ensures traffic { RunsMoveTheirTraffic }
{
    full_replies_stay();
    legal_relays_name_accepted();
    replies_are_messages();
    honest_clients_are_never_refused();
    runs_leave_full_records();
}

/// No player of such a run is failed by its server: in the session that it has open no end had a fault, no reply is awaited at an end that
/// told that no more will come, and what comes next is a reply that the client takes.
///
/// So it stops only where its script does.
pub fn open_sessions_go_on()
    ensures shut { NoClientIsShut }
    ensures taken { NextRepliesAreTaken }
    ensures ends { PlayersComeToTheirEnds }
    ensures faults { UncutSessionsHaveNoFault }
{
    full_replies_stay();
    legal_relays_name_accepted();
    replies_are_messages();
    honest_clients_are_never_refused();
}
