//! Settling all pairs of a run.
ghost use Rattle.std.specs.Prelude.{◌≡◌, ◌≤◌, true, false, length, ◌++◌};
ghost use Rattle.std.specs.List.{AllZip};
ghost use Rattle.sv_threads.specs.RunRemains.{transcripts_of, EndsAgree};
ghost use Rattle.sv_threads.specs.Opening.{SettledAfter};
ghost use Rattle.sv_threads.specs.Pairs.{pairing};
ghost use Rattle.sv_threads.specs.Settling.{SettledCause, SettledEach, ArePair, AreCalm, AnyZip, Differ};

use crate::gathering::{ClientEnd, RunRemains};
use crate::outcome::PlayFault;
use sv_link::{Net, Settle};

/// Settles all pairs, in order. Whether all of them matched.
pub(crate) fn settle_all<N: Net>(
    net: &mut N,
    servers: Vec<N::E>,
    clients: Vec<ClientEnd<N::E>>,
) -> bool
    requires pairs { AllZip (ArePair N.E.told (N.made net.old)) servers.items clients.items }
    requires owed { length servers.items ≤ N.owed net.old }
    ensures settled { result ≡ true → N.settled net.new ≡ N.settled net.old ++ transcripts_of N.E.told N.E.faults servers.items clients.items }
    ensures agree { result ≡ true → AllZip (EndsAgree N.E.told N.E.faults) servers.items clients.items }
    ensures each { SettledEach N.E.told N.E.calm (N.calm net.old) servers.items clients.items result (pairing (N.settled net.old) (N.unmatched net.old) (N.made net.old) (N.owed net.old)) (pairing (N.settled net.new) (N.unmatched net.new) (N.made net.new) (N.owed net.new)) }
    ensures cause { SettledCause (N.faults net.old) (N.faults net.new) result }
    ensures made { N.made net.new ≡ N.made net.old }
    ensures calm { N.calm net.old → N.calm net.new }
    ensures certain { result ≡ false → N.calm net.old → AllZip (AreCalm N.E.calm) servers.items clients.items → AnyZip (Differ N.E.told) servers.items clients.items }
{
    let mut matched = true;
    let mut clients = clients.into_iter();
    for server in servers {
        let Some(client) = clients.next() else {
            unreachable!()
        };
        match net.settle(server, client.end, client.cut) {
            Settle::Matched => {}
            Settle::Failed => matched = false,
        }
    }
    matched
}

/// Settles the pairs of a run that could not go on, and gives the fault that it ends with.
pub(crate) fn settle_after<N: Net>(
    net: &mut N,
    left: RunRemains<N::E>,
    fault: PlayFault,
) -> PlayFault
    requires pairs { AllZip (ArePair N.E.told (N.made net.old)) left.servers.items left.clients.items }
    requires owed { length left.servers.items ≤ N.owed net.old }
    ensures settled { SettledAfter N.E.told N.E.calm (N.calm net.old) left.servers.items left.clients.items (N.faults net.old) (N.faults net.new)
        (pairing (N.settled net.old) (N.unmatched net.old) (N.made net.old) (N.owed net.old)) (pairing (N.settled net.new) (N.unmatched net.new) (N.made net.new) (N.owed net.new)) fault result }
    ensures calm { N.calm net.old → N.calm net.new }
{
    let RunRemains {
        servers,
        clients,
        ..
    } = left;
    if settle_all(net, servers, clients) {
        fault
    } else {
        PlayFault::Link
    }
}
