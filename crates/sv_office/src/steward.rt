//! The steward: an honest client within the server.
ghost use Rattle.std.specs.Prelude.{◌≡◌, ◌≢◌, ℕ, List, [], false, true, None, Some, IfOk, IfErr, IfSome, IfNone, OnOk, OnErr};
ghost use Rattle.sv_client.specs.Kinds.{asks_for_done};
ghost use Rattle.sv_journal.specs.History.{actions_of};
ghost use Rattle.sv_journal.specs.Laws.{AreWithinLimits};
ghost use Rattle.sv_living.specs.World.{WorldView};
ghost use Rattle.law_system.specs.Delivery.{telling_in};
ghost use Rattle.law_system.specs.Told.{ReportsSerial, all_got};
ghost use Rattle.sv_living.specs.World.{after};
ghost use Rattle.sv_wire.specs.declared.message.Request.TheVariants as requests;
ghost use Rattle.sv_office.specs.Admitting.{steward_number};
ghost use Rattle.sv_office.specs.Entering.{KeepsOwn, GoesOn, IsEntryOf, IsReport, IsReported, IsStewards};
ghost use Rattle.sv_office.specs.Stewarding.{Reports, is_refused};
ghost use Rattle.sv_office.specs.Trusting.{IsLegalWorld, IsSerialWorld};

use crate::entering::{asking_session, enter};
use crate::halt::Halt;
use crate::stepping::STEWARD_NUMBER;
use law_system::{sessions_are_told_their_replies, told_clients_report_serial_results};
use std::alloc::{AllocError, Global};
use sv_client::{LeanClient, PollFault, TakeFault};
use sv_journal::living_worlds_are_served;
use sv_keeper::Keeper;
use sv_lists::List;
use sv_log::Folder;
use sv_wire::{Refusal, Reply, Request};
use sv_world::{ClientId, Shape};

/// How many sessions the steward begins at most.
const MOST_LIVES: u32 = 4_000_000_000;

/// A client that is asked by calls and not over a connection.
#[derive(Drop)]
pub struct Steward {
    alloc: Global,
    client: Box<LeanClient>,
    session: Option<u64>,
    /// It may not have got the last reply to its session. Then it reports nothing more.
    is_behind: bool,
    ghost number: { client.value.who.client.0 ≡ steward_number },
}

fn fault_of_take(fault: TakeFault) -> Halt {
    match fault {
        TakeFault::Memory => Halt::Memory,
        _ => Halt::Steward,
    }
}

/// How many results a request reports.
fn results_in(request: &Request) -> u64 {
    match request {
        Request::Done { results } => results.len() as u64,
        _ => 0,
    }
}

/// The life that a refused Join is told, where another one was greater.
fn told_life(reply: &Reply) -> Option<u32>
    ensures { IfSome result (λ _. telling_in reply.now ≡ []) }
{
    match reply {
        Reply::Refused { code, detail } if *code == Refusal::OldLife.code() => Some(*detail),
        _ => None,
    }
}

impl Steward {
    ghost use Rattle.sv_office.specs.Knowing.{HasGotAll, IsAlone, IsAloneIn, IsUpToDate, LacksOnly};
    ghost use Rattle.sv_office.specs.Offices.{HasBegun};

    pub fn new(alloc: Global, shape: Shape) -> Result<Steward, AllocError>
        ensures none { IfOk result (λ steward. steward.session ≡ None) }
        ensures told { IfOk result (λ steward. (v : WorldView) → IsUpToDate v steward) }
    {
        let client = LeanClient::new(alloc, ClientId(STEWARD_NUMBER), shape, List::new(alloc))?;
        Ok(Steward {
            alloc,
            client: Box::new(alloc, client)?,
            session: None,
            is_behind: false,
        })
    }

    // Takes a reply. What it asks then is a Done, where there is something to report.
    fn take(&mut self, reply: &Reply) -> Result<Option<Request>, Halt>
        ensures session { self.new.session ≡ self.old.session }
        ensures done { IfOk result (λ done. IfSome done (Reports reply.now)) }
        ensures none { IfOk result (λ done. IfNone done (asks_for_done reply.now ≡ false)) }
        ensures taken { OnOk result (is_refused reply.now ≡ false) }
        ensures told { OnOk result ((v : WorldView) → LacksOnly v self.old reply.now → HasGotAll v self.new) }
        ensures serial { IfOk result (λ done. IfSome done (λ request. (v : WorldView) → AreWithinLimits v.rules → IsLegalWorld v → IsSerialWorld v → HasGotAll v self.new
            → ReportsSerial v.rules.world.values (actions_of v.history) request)) }
        ensures behind { OnErr result (self.new.is_behind ≡ self.old.is_behind) }
    {
        living_worlds_are_served();
        told_clients_report_serial_results();
        match self.client.take(reply) {
            Ok(done) => {
                self.is_behind = false;
                Ok(done)
            }
            Err(fault) => Err(fault_of_take(fault)),
        }
    }

    // Asks to join with its next life, in its session or in the next one. It is to take the reply.
    #[tactic(auto, using(crate::proofs::Adding::goes_nowhere, crate::proofs::Stewarding::begun_stays, crate::proofs::Stewarding::begun_entered, crate::proofs::Stewarding::keeps_asking))]
    fn begin<F: Folder>(&mut self, keeper: &mut Keeper<F>) -> Result<Reply, Halt>
        requires limits { AreWithinLimits keeper.old.world.rules }
        ensures begun { HasBegun keeper.old.world self.old.session → HasBegun keeper.new.world self.new.session }
        ensures session { KeepsOwn keeper.old.world.history self.old.session self.new.session }
        ensures still { self.old.session ≢ None → self.new.session ≡ self.old.session }
        ensures added { GoesOn (IsStewards keeper.old.world.history self.old.session) keeper.old.world keeper.new.world }
        ensures told { HasGotAll keeper.old.world self.old → IfOk result (LacksOnly keeper.new.world self.new) }
        ensures got { all_got self.new.client.value.events ≡ all_got self.old.client.value.events }
        ensures behind { self.new.is_behind ≡ true }
        ensures alone { IsAloneIn keeper.old self.old.session → IsAloneIn keeper.new self.new.session }
    {
        self.is_behind = true;
        if self.client.sessions() >= MOST_LIVES {
            return Err(Halt::Steward);
        }
        let requests = self.client.join()?;
        let Some(request) = requests.first() else {
            return Err(Halt::Steward);
        };
        sessions_are_told_their_replies();
        let session = asking_session(keeper, self.session);
        let reply = enter(keeper, session, request)?;
        self.session = Some(session);
        Ok(reply)
    }

    // It is as one that began so many sessions in runs that are over.
    fn renew(&mut self, sessions: u32) -> Result<(), AllocError>
        ensures session { self.new.session ≡ self.old.session }
        ensures behind { self.new.is_behind ≡ self.old.is_behind }
        ensures got { OnOk result (all_got self.new.client.value.events ≡ []) }
    {
        sessions_are_told_their_replies();
        let shape = self.client.shape();
        let client = LeanClient::after(
            self.alloc,
            ClientId(STEWARD_NUMBER),
            shape,
            List::new(self.alloc),
            sessions,
        )?;
        self.client = Box::new(self.alloc, client)?;
        Ok(())
    }

    // Begins, and where a greater life was told, begins with the next one.
    fn begin_newest<F: Folder>(&mut self, keeper: &mut Keeper<F>) -> Result<Reply, Halt>
        requires limits { AreWithinLimits keeper.old.world.rules }
        ensures begun { HasBegun keeper.old.world self.old.session → HasBegun keeper.new.world self.new.session }
        ensures session { KeepsOwn keeper.old.world.history self.old.session self.new.session }
        ensures still { self.old.session ≢ None → self.new.session ≡ self.old.session }
        ensures added { GoesOn (IsStewards keeper.old.world.history self.old.session) keeper.old.world keeper.new.world }
        ensures told { self.old.session ≡ None → HasGotAll keeper.old.world self.old → IfOk result (LacksOnly keeper.new.world self.new) }
        ensures behind { self.new.is_behind ≡ true }
        ensures alone { IsAloneIn keeper.old self.old.session → IsAloneIn keeper.new self.new.session }
    {
        let reply = self.begin(keeper)?;
        match told_life(&reply) {
            Some(life) => {
                self.renew(life)?;
                self.begin(keeper)
            }
            None => Ok(reply),
        }
    }

    /// Joins, where it has no session. A refusal tells the greatest life that there was, and it joins with the next one.
    #[tactic(auto, using(crate::proofs::Adding::goes_nowhere))]
    pub(crate) fn join<F: Folder>(&mut self, keeper: &mut Keeper<F>) -> Result<(), Halt>
        requires limits { AreWithinLimits keeper.old.world.rules }
        ensures begun { HasBegun keeper.old.world self.old.session → HasBegun keeper.new.world self.new.session }
        ensures session { KeepsOwn keeper.old.world.history self.old.session self.new.session }
        ensures still { self.old.session ≢ None → self.new.session ≡ self.old.session }
        ensures added { GoesOn (IsStewards keeper.old.world.history self.old.session) keeper.old.world keeper.new.world }
        ensures told { IsUpToDate keeper.old.world self.old → IsUpToDate keeper.new.world self.new }
        ensures alone { IsAloneIn keeper.old self.old.session → IsAloneIn keeper.new self.new.session }
    {
        if self.is_behind || self.session.is_some() {
            return Err(Halt::Steward);
        }
        let reply = self.begin_newest(keeper)?;
        let _ = self.take(&reply)?;
        Ok(())
    }

    fn poll(&mut self) -> Result<Request, Halt>
        ensures session { self.new.session ≡ self.old.session }
        ensures poll { IfOk result (λ request. request ≡ requests.Poll) }
        ensures got { all_got self.new.client.value.events ≡ all_got self.old.client.value.events }
        ensures behind { self.new.is_behind ≡ self.old.is_behind }
    {
        if !self.client.in_session() {
            return Err(Halt::Steward);
        }
        match self.client.poll() {
            Ok(request) => Ok(request),
            Err(PollFault::Memory) => Err(Halt::Memory),
            Err(_) => Err(Halt::Steward),
        }
    }

    /// Polls, and reports what it is sent. The answer is how many results it reported, 0 where it was answered Idle. Without a session it is an error.
    #[tactic(auto, using(crate::proofs::Adding::goes_nowhere))]
    pub(crate) fn report<F: Folder>(&mut self, keeper: &mut Keeper<F>) -> Result<u64, Halt>
        requires limits { AreWithinLimits keeper.old.world.rules }
        requires told { IsUpToDate keeper.old.world self.old }
        ensures session { self.new.session ≡ self.old.session }
        ensures reported { OnOk result ((t : ℕ) × (self.old.session ≡ Some t) × IsReported t keeper.old.world.history keeper.new.world.history) }
        ensures added { GoesOn (IsReport self.old.session) keeper.old.world keeper.new.world }
        ensures told { IsUpToDate keeper.new.world self.new }
        ensures alone { IsAloneIn keeper.old self.old.session → IsAloneIn keeper.new self.new.session }
    {
        let Some(session) = self.session else {
            return Err(Halt::Steward);
        };
        if self.is_behind {
            return Err(Halt::Steward);
        }
        let request = self.poll()?;
        sessions_are_told_their_replies();
        self.is_behind = true;
        let reply = enter(keeper, session, &request)?;
        keeper.is_lawful();
        match self.take(&reply)? {
            Some(done) => self.note(keeper, session, &done),
            None => Ok(0),
        }
    }

    // Reports what it was sent.
    fn note<F: Folder>(
        &mut self,
        keeper: &mut Keeper<F>,
        session: u64,
        done: &Request,
    ) -> Result<u64, Halt>
        requires limits { AreWithinLimits keeper.old.world.rules }
        requires own { self.old.session ≡ Some session }
        requires told { HasGotAll keeper.old.world self.old }
        requires serial { IsSerialWorld keeper.old.world → ReportsSerial keeper.old.world.rules.world.values (actions_of keeper.old.world.history) done.now }
        ensures session { self.new.session ≡ self.old.session }
        ensures reported { OnOk result (keeper.new.world ≡ after keeper.old.world session done.now) }
        ensures added { GoesOn (IsEntryOf session done.now) keeper.old.world keeper.new.world }
        ensures told { IsUpToDate keeper.new.world self.new }
        ensures alone { IsAloneIn keeper.old self.old.session → IsAloneIn keeper.new self.new.session }
    {
        sessions_are_told_their_replies();
        self.is_behind = true;
        let noted = enter(keeper, session, done)?;
        let _ = self.take(&noted)?;
        Ok(results_in(done))
    }
}
