//! A net whose connections lie in memory.
ghost use Rattle.std.specs.Prelude.{◌≡◌, ◌<◌, suc, [], ◌∷◌, ◌++◌, ◌↔◌, IfOk, OnOk, OnErr, IsTrue};
ghost use Rattle.sv_link.specs.Logs.{told_of};
ghost use Rattle.sv_link.specs.Nets.{both_ends, BothArrived, Settles, ListsUnmatched, SettleCause, counted, MakesPair, OwesPair, PairCause};
ghost use Rattle.sv_link.specs.Pipes.{IsCopied, SomeReceived};

use crate::book::Book;
use crate::log::EndLog;
use crate::nets::{Net, Pair, Settle};
use crate::pairs::{SettledPair, open_pair, settle_pair};
use crate::pipe::Pipe;
use crate::pipe_end::PipeEnd;
use http_server::Log;
use std::alloc::{AllocError, Global};
use std::sync::{Arc, Wait};
use sv_bytes::CallPlan;

/// Connections in memory, whose ends go to two threads. It has lists of calls that fail.
///
/// The calls of `pair` and `settle` are counted together, from 1; so are the reads and writes of each end, for itself.
#[derive(Drop)]
pub struct PipeNet<'r, R: Wait> {
    alloc: Global,
    rt: &'r R,
    book: Book<SettledPair>,
    unmatched: Log<EndLog, EndLog>,
    calls: CallPlan,
    server: CallPlan,
    client: CallPlan,
    settlings: CallPlan,
}

impl<'r, R: Wait> PipeNet<'r, R> {
    ghost use Rattle.sv_link.specs.Pipes.{IsNewNet, book_of, unmatched_of, plans_of, pipe_told, pipe_faults, CountsCall, IsListed, HavePlans, RefusesEnds};

    /// No pair was made, and no call fails.
    pub fn new(alloc: Global, rt: &'r R) -> PipeNet<'r, R>
        ensures { IsNewNet result }
    {
        PipeNet {
            alloc,
            rt,
            book: Book::new(alloc),
            unmatched: Log::new(),
            calls: CallPlan::new(alloc),
            server: CallPlan::new(alloc),
            client: CallPlan::new(alloc),
            settlings: CallPlan::new(alloc),
        }
    }

    /// Lets this call of `pair` or `settle` fail.
    pub fn fail_at(&mut self, call: u64) -> Result<(), AllocError>
        ensures ok { OnOk result (plans_of self.new ≡ record (plans_of self.old) { calls = (plans_of self.old).calls ++ call ∷ [] }) }
        ensures err { OnErr result (plans_of self.new ≡ plans_of self.old) }
        ensures pairs { (book_of self.new ≡ book_of self.old) × (unmatched_of self.new ≡ unmatched_of self.old) }
    {
        self.calls.fail_at(call)
    }

    /// Lets this call of each server's end fail that is made from now on.
    pub fn fail_server_at(&mut self, call: u64) -> Result<(), AllocError>
        ensures ok { OnOk result (plans_of self.new ≡ record (plans_of self.old) { server = (plans_of self.old).server ++ call ∷ [] }) }
        ensures err { OnErr result (plans_of self.new ≡ plans_of self.old) }
        ensures pairs { (book_of self.new ≡ book_of self.old) × (unmatched_of self.new ≡ unmatched_of self.old) }
    {
        self.server.fail_at(call)
    }

    /// Lets this call of each client's end fail that is made from now on.
    pub fn fail_client_at(&mut self, call: u64) -> Result<(), AllocError>
        ensures ok { OnOk result (plans_of self.new ≡ record (plans_of self.old) { client = (plans_of self.old).client ++ call ∷ [] }) }
        ensures err { OnErr result (plans_of self.new ≡ plans_of self.old) }
        ensures pairs { (book_of self.new ≡ book_of self.old) × (unmatched_of self.new ≡ unmatched_of self.old) }
    {
        self.client.fail_at(call)
    }

    /// Lets one received byte be taken as changed in this settling. They are counted from 1. Where nothing was received, nothing changes.
    pub fn change_at(&mut self, settling: u64) -> Result<(), AllocError>
        ensures ok { OnOk result (plans_of self.new ≡ record (plans_of self.old) { settlings = (plans_of self.old).settlings ++ settling ∷ [] }) }
        ensures err { OnErr result (plans_of self.new ≡ plans_of self.old) }
        ensures pairs { (book_of self.new ≡ book_of self.old) × (unmatched_of self.new ≡ unmatched_of self.old) }
    {
        self.settlings.fail_at(settling)
    }

    /// Lets each call of ends that are made from now on move at most `step` bytes.
    pub fn move_at_most(&mut self, step: usize)
        requires { 0 < step }
        ensures plans { plans_of self.new ≡ record (plans_of self.old) { server_step = step; client_step = step } }
        ensures pairs { (book_of self.new ≡ book_of self.old) × (unmatched_of self.new ≡ unmatched_of self.old) }
    {
        self.server.step = step;
        self.client.step = step;
    }

    /// What `pair` does: it fails just where this call is listed, and an end that it makes has the list and the step for its side.
    pub fn make_pair(&mut self) -> Pair<PipeEnd<'r, R>>
        ensures calls { CountsCall self.old.calls self.new.calls }
        ensures fails { result ≡ Pair.Failed ↔ IsListed self.new.calls }
        ensures ends { HavePlans self.old result }
        ensures plans { (self.new.server ≡ self.old.server) × (self.new.client ≡ self.old.client) × (self.new.settlings ≡ self.old.settlings) }
        ensures made { MakesPair pipe_told pipe_faults self.old.book.made self.new.book.made result }
        ensures owed { OwesPair self.old.book.owed self.new.book.owed result }
        ensures settled { (self.new.book.kept.items ≡ self.old.book.kept.items) × (unmatched_of self.new ≡ unmatched_of self.old) }
        ensures cause { PairCause self.old.book.faults.value self.new.book.faults.value result }
    {
        if self.calls.next_fails() {
            self.book.count_fault();
            return Pair::Failed;
        }
        let Ok(pipe) = Arc::new(self.alloc, Pipe::new(self.alloc)) else {
            return Pair::Memory;
        };
        let Ok(shared) = Arc::try_clone(&pipe) else {
            return Pair::Memory;
        };
        let Ok(server_plan) = copied_plan(self.alloc, &self.server) else {
            return Pair::Memory;
        };
        let Ok(client_plan) = copied_plan(self.alloc, &self.client) else {
            return Pair::Memory;
        };
        if !self.book.takes_room() {
            return Pair::Memory;
        }
        let (server, client) = open_pair(&mut self.book, self.alloc);
        let server = PipeEnd::new(self.rt, pipe, server_plan, server);
        let client = PipeEnd::new(self.rt, shared, client_plan, client);
        Pair::Made(server, client)
    }

    // Counts the call and the settling, and answers whether these two ends are settled as failed whatever they tell.
    fn refuses(&mut self, server: &EndLog, client: &EndLog) -> bool
        ensures refused { IsTrue result ↔ RefusesEnds self.new (told_of server.now) (told_of client.now) }
        ensures calls { CountsCall self.old.calls self.new.calls × CountsCall self.old.settlings self.new.settlings }
        ensures same { (self.new.server ≡ self.old.server) × (self.new.client ≡ self.old.client) × (self.new.book ≡ self.old.book) × (self.new.unmatched ≡ self.old.unmatched) }
    {
        let is_changed = self.changes(server, client);
        self.calls.next_fails() || is_changed
    }

    // Counts the settling, and answers whether a byte of it is taken as changed.
    fn changes(&mut self, server: &EndLog, client: &EndLog) -> bool
        ensures changed { IsTrue result ↔ (IsListed self.new.settlings × SomeReceived (told_of server.now) (told_of client.now)) }
        ensures settlings { CountsCall self.old.settlings self.new.settlings }
        ensures same { (self.new.server ≡ self.old.server) × (self.new.client ≡ self.old.client) × (self.new.book ≡ self.old.book) × (self.new.unmatched ≡ self.old.unmatched) × (self.new.calls ≡ self.old.calls) }
    {
        self.settlings.next_fails() && some_received(server, client)
    }

    /// What `settle` does: it fails where its lists say so, and else just where bytes differ or a fault counts.
    pub fn settle_ends(
        &mut self,
        server: PipeEnd<'r, R>,
        client: PipeEnd<'r, R>,
        cut: bool,
    ) -> Settle
        requires owed { 0 < self.old.book.owed }
        ensures calls { CountsCall self.old.calls self.new.calls × CountsCall self.old.settlings self.new.settlings }
        ensures plans { (self.new.server ≡ self.old.server) × (self.new.client ≡ self.old.client) }
        ensures refused { RefusesEnds self.new (pipe_told server.entry) (pipe_told client.entry) → result ≡ Settle.Failed }
        ensures certain { ¬ RefusesEnds self.new (pipe_told server.entry) (pipe_told client.entry) → counted cut (pipe_faults server.entry) (pipe_faults client.entry) ≡ 0 → BothArrived (pipe_told server.entry) (pipe_told client.entry) → result ≡ Settle.Matched }
        ensures settles { Settles (pipe_told server.entry) (pipe_faults server.entry) (pipe_told client.entry) (pipe_faults client.entry) cut self.old.book.kept.items self.new.book.kept.items result }
        ensures unmatched { ListsUnmatched (both_ends (pipe_told server.entry) (pipe_faults server.entry) (pipe_told client.entry) (pipe_faults client.entry)) (unmatched_of self.old) (unmatched_of self.new) result }
        ensures made { self.new.book.made ≡ self.old.book.made }
        ensures owed { self.old.book.owed ≡ suc self.new.book.owed }
        ensures cause { SettleCause self.old.book.faults.value self.new.book.faults.value (counted cut (pipe_faults server.entry) (pipe_faults client.entry)) result }
    {
        let server = server.into_log();
        let client = client.into_log();
        let refused = self.refuses(&server, &client);
        settle_pair(
            &mut self.book,
            &mut self.unmatched,
            server,
            client,
            cut,
            refused,
        )
    }
}

impl<'r, R: Wait + Sync> Net for PipeNet<'r, R> {
    ghost use Rattle.sv_link.specs.Pipes.{unmatched_of, plans_of, HasNoPlan};

    type E = PipeEnd<'r, R>;

    ghost settled = { λ n. n.book.kept.items };

    ghost unmatched = { unmatched_of };

    ghost made = { λ n. n.book.made };

    ghost owed = { λ n. n.book.owed };

    ghost faults = { λ n. n.book.faults.value };

    ghost calm = { λ n. HasNoPlan (plans_of n) };

    fn pair(&mut self) -> Pair<PipeEnd<'r, R>> {
        self.make_pair()
    }

    fn settle(&mut self, server: PipeEnd<'r, R>, client: PipeEnd<'r, R>, cut: bool) -> Settle {
        self.settle_ends(server, client, cut)
    }
}

fn some_received(server: &EndLog, client: &EndLog) -> bool
    ensures { IsTrue result ↔ SomeReceived (told_of server.now) (told_of client.now) }
{
    !server.received.is_empty() || !client.received.is_empty()
}

/// A plan that fails at the same calls, for another object.
pub fn copied_plan(alloc: Global, plan: &CallPlan) -> Result<CallPlan, AllocError>
    ensures { IfOk result (IsCopied plan.now) }
{
    Ok(CallPlan {
        failing: Vec::from_slice(alloc, &plan.failing)?,
        made: 0,
        step: plan.step,
    })
}
