//! The pairs of a net: how they are opened and settled.
ghost use Rattle.std.specs.Prelude.{◌≡◌, ℕ, suc, ◌+◌, ◌<◌, [], true, false, IsTrue, ◌↔◌};
ghost use Rattle.sv_link.specs.Books.{CanOpen};
ghost use Rattle.sv_link.specs.Ends.{new_end};
ghost use Rattle.sv_link.specs.Logs.{told_of};
ghost use Rattle.sv_link.specs.Nets.{Arrived, BothArrived, Settles, ListsUnmatched, SettleCause, counted};
ghost use Rattle.sv_link.specs.Unmatched.{ends_of, unmatched_in};
ghost use Rattle.sv_link.specs.declared.side.Side.TheVariants.{Server, Client};

use crate::book::Book;
use crate::log::EndLog;
use crate::nets::Settle;
use crate::side::Side;
use http_server::Log;
use std::alloc::Global;
use std::marker::Model;
use sv_bytes::FaultCount;

/// A pair that was settled.
#[derive(Drop)]
pub(crate) struct SettledPair {
    server: EndLog,
    client: EndLog,
}

impl Model for SettledPair {
    ghost use Rattle.sv_link.specs.Logs.{told_of};
    ghost use Rattle.sv_link.specs.Nets.{Transcript, transcript_of};

    ghost Value = { Transcript };

    ghost view = { λ s. transcript_of (told_of s.server) s.server.faults (told_of s.client) s.client.faults };
}

/// Gives a new pair's two ends: the server's, and the client's.
pub(crate) fn open_pair(book: &mut Book<SettledPair>, alloc: Global) -> (EndLog, EndLog)
    requires room { CanOpen book.old }
    ensures server { (told_of result.0 ≡ new_end book.old.made Server) × (result.0.faults ≡ 0) }
    ensures client { (told_of result.1 ≡ new_end book.old.made Client) × (result.1.faults ≡ 0) }
    ensures made { (book.new.made ≡ suc book.old.made) × (book.new.owed ≡ suc book.old.owed) }
    ensures same { (book.new.kept.items ≡ book.old.kept.items) × (book.new.faults ≡ book.old.faults) }
{
    let pair = book.take_number();
    (
        EndLog::new(alloc, pair, Side::Server),
        EndLog::new(alloc, pair, Side::Client),
    )
}

/// Compares two ends. `refused` says that the net settles them as failed all the same. Contracts alone see the list of those that failed.
pub(crate) fn settle_pair(
    book: &mut Book<SettledPair>,
    unmatched: &mut Log<EndLog, EndLog>,
    server: EndLog,
    client: EndLog,
    cut: bool,
    refused: bool,
) -> Settle
    requires owed { 0 < book.old.owed }
    ensures settles { Settles (told_of server) server.faults (told_of client) client.faults cut book.old.kept.items book.new.kept.items result }
    ensures unmatched { ListsUnmatched (ends_of server client) (unmatched_in unmatched.old.items) (unmatched_in unmatched.new.items) result }
    ensures made { book.new.made ≡ book.old.made }
    ensures owed { book.old.owed ≡ suc book.new.owed }
    ensures cause { SettleCause book.old.faults.value book.new.faults.value (counted cut server.faults client.faults) result }
    ensures certain { refused ≡ false → counted cut server.faults client.faults ≡ 0 → BothArrived (told_of server) (told_of client) → result ≡ Settle.Matched }
    ensures refuses { refused ≡ true → result ≡ Settle.Failed }
{
    let arrived = both_arrived(&server, &client);
    let faultless = cut || (server.faults == 0 && client.faults == 0);
    if arrived && faultless && !refused {
        book.keep(SettledPair { server, client });
        return Settle::Matched;
    }
    *unmatched = unmatched.and(&server, &client);
    book.owed -= 1;
    book.faults.raise();
    if !cut {
        raise_by(&mut book.faults, server.faults);
        raise_by(&mut book.faults, client.faults);
    }
    Settle::Failed
}

fn raise_by(count: &mut FaultCount, times: u64)
    ensures { count.new.value ≡ count.old.value + times }
{
    for _ in 0..times {
        count.raise();
    }
}

fn both_arrived(server: &EndLog, client: &EndLog) -> bool
    ensures { IsTrue result ↔ BothArrived (told_of server.now) (told_of client.now) }
{
    arrived(&client.sent, &server.received, server.ended)
        && arrived(&server.sent, &client.received, client.ended)
}

fn arrived(sent: &[u8], received: &[u8], ended: bool) -> bool
    ensures { IsTrue result ↔ Arrived sent.now received.now ended }
{
    sent.starts_with(received) && (!ended || received.len() == sent.len())
}
