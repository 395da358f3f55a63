//! A connection's turn: requests are taken of it, at most so many, and read on.
ghost use Rattle.std.specs.Prelude.{◌≡◌, ◌≢◌, ◌⊎◌, ◌≤◌, ℕ, List, false, Some, IfOk, OnOk, IsTrue, length};
ghost use Rattle.sv_journal.specs.Sessions.{is_end};
ghost use Rattle.sv_living.specs.World.{WorldView};
ghost use Rattle.sv_office.specs.Entering.{GoesOn, KeepsOwn, AsksInOne, MayEnter, MayHold};
ghost use Rattle.sv_office.specs.Guests.{HasYetToAsk, IsHeardOf, OnlyHeard};
ghost use Rattle.sv_office.specs.Offices.{IsNotStewards, session_of};
ghost use Rattle.sv_office.specs.Renewing.{KeepsKeys};
ghost use Rattle.sv_office.specs.Telling.{IsServedGuest};
ghost use Rattle.sv_office.specs.Turns.{AreLent, HasHeardKey, ShowsFirst, TakesTurn};
ghost use Rattle.sv_office.specs.declared.guest.Standing.TheVariants as standing;
ghost use Rattle.sv_office.specs.declared.hearing.Course.TheVariants as courses;

use crate::guest::Guest;
use crate::halt::Halt;
use crate::office::Office;
use crate::outside::Outside;
use sv_bytes::{Files, Sink};
use sv_log::Folder;
use sv_peer::Heard;
use sv_ports::{PortRead, Ports};
use sv_site::Site;
use sv_wire::Request;

/// How many requests of one connection are stepped before another's turn.
pub const REQUESTS_A_TURN: u32 = 16;

/// How many reads of one connection are made before another's turn.
const READS_A_TURN: u32 = 64;

/// While so many bytes wait to be sent to a connection, nothing is taken of it.
pub const FULL: usize = 65_536;

/// What was taken of a connection.
#[derive(Clone, Copy, Debug, Drop, PartialEq, Eq)]
enum Taken {
    Request,
    /// A key, or the end.
    Other,
    /// Nothing whole has come.
    Nothing,
}

/// How a turn goes on.
#[derive(Clone, Copy, Debug, Drop, PartialEq, Eq)]
enum Course {
    /// It goes on.
    On,
    /// Nothing more is taken of the connection in this turn.
    Over,
}

/// The halves of a connection's turn. What came of all connections is read first, and then each is answered: so little code is run at a time, and it
/// stays near the processor.
#[derive(Clone, Copy, Debug, Drop, PartialEq, Eq)]
pub enum Half {
    Reads,
    Answers,
}

/// Reads what comes, and closes a connection of which no more will come. The answer is how many bytes came.
fn read_piece<P: Ports>(ports: &mut P, number: u64, guest: &mut Guest, piece: &mut [u8]) -> usize
    ensures count { result ≤ length piece.new }
    ensures told { OnlyHeard number (P.told ports.old) (P.told ports.new) }
    ensures served { (v : WorldView) → IsServedGuest v guest.old → IsServedGuest v guest.new }
    ensures guest { IsHeardOf guest.old guest.new }
{
    let room = guest.peer.spare().min(piece.len());
    if room == 0 {
        return 0;
    }
    match ports.read(number, &mut piece[..room]) {
        PortRead::Got(count) => count,
        PortRead::NotYet => 0,
        PortRead::Ended => {
            guest.close();
            0
        }
        PortRead::Failed => {
            guest.leave();
            0
        }
    }
}

/// Reads what comes of a connection that is closing, and throws it away.
#[inline(never)]
fn drain<P: Ports>(ports: &mut P, number: u64, guest: &mut Guest, piece: &mut [u8])
    ensures told { OnlyHeard number (P.told ports.old) (P.told ports.new) }
    ensures served { (v : WorldView) → IsServedGuest v guest.old → IsServedGuest v guest.new }
    ensures guest { IsHeardOf guest.old guest.new }
{
    for _ in 0..READS_A_TURN {
        match ports.read(number, piece) {
            PortRead::Got(_) => {}
            PortRead::NotYet => return,
            PortRead::Ended => return,
            PortRead::Failed => {
                guest.leave();
                return;
            }
        }
    }
}

/// What a request asks. An End is none that a connection may make.
fn asked(request: Request) -> Request
    ensures { is_end result ≡ false }
{
    match request {
        Request::End => Request::Bad,
        other => other,
    }
}

impl<F: Folder> Office<F> {
    /// A half of the turn of a connection that is taken out. `room` is for what is read at once. The second half reads on where it took all that was read.
    pub fn hear<P: Ports, L: Files, E: Sink>(
        &mut self,
        outside: &mut Outside<'_, '_, '_, P, L, E>,
        number: u64,
        guest: &mut Guest,
        room: &mut [u8],
        half: Half,
    ) -> Result<(), Halt>
        requires served { IsServedGuest self.old.keeper.world guest.old }
        requires apart { IsNotStewards guest.old.session (session_of self.old.steward) }
        ensures served { OnOk result (IsServedGuest self.new.keeper.world guest.new) }
        ensures added { GoesOn (MayEnter self.old.keeper.world.history (session_of self.old.steward) guest.old.session self.new.keys guest.new.key) self.old.keeper.world self.new.keeper.world }
        ensures asked { AsksInOne (session_of self.old.steward) guest.old.session guest.new.session self.old.keeper.world.history self.new.keeper.world.history }
        ensures session { KeepsOwn self.old.keeper.world.history guest.old.session guest.new.session }
        ensures shut { guest.old.standing ≢ standing.Open → self.new.keeper.world ≡ self.old.keeper.world }
        ensures shown { ShowsFirst self.old.keys self.new.keys guest.old guest.new }
        ensures held { MayHold self.old.keys guest.old.key guest.old.held → MayHold self.new.keys guest.new.key guest.new.held }
        ensures steward { session_of self.new.steward ≡ session_of self.old.steward }
        ensures policy { self.new.policy ≡ self.old.policy }
        ensures told { OnlyHeard number (P.told outside.old.ports.now) (P.told outside.new.ports.now) }
        ensures lent { AreLent outside.old outside.new }
        ensures sent { guest.new.peer.sent ≡ guest.old.peer.sent }
        ensures kept { KeepsKeys (L.contents outside.old.files.now) (L.contents outside.new.files.now) self.old.keys self.new.keys }
    {
        if half == Half::Reads {
            return self.read_ahead(outside, number, guest, room);
        }
        guest.had_turn = true;
        if !guest.is_open() {
            drain(outside.ports, number, guest, room);
            return Ok(());
        }
        if !self.take_waiting(outside.files, guest) {
            return Ok(());
        }
        self.take_all(outside, number, guest, room)
    }

    // Reads what has come, where nothing waits to be taken from before.
    fn read_ahead<P: Ports, L: Files, E: Sink>(
        &mut self,
        outside: &mut Outside<'_, '_, '_, P, L, E>,
        number: u64,
        guest: &mut Guest,
        room: &mut [u8],
    ) -> Result<(), Halt>
        requires served { IsServedGuest self.old.keeper.world guest.old }
        requires apart { IsNotStewards guest.old.session (session_of self.old.steward) }
        ensures served { OnOk result (IsServedGuest self.new.keeper.world guest.new) }
        ensures turn { TakesTurn self.old self.new guest.old guest.new }
        ensures shut { guest.old.standing ≢ standing.Open → self.new.keeper.world ≡ self.old.keeper.world }
        ensures told { OnlyHeard number (P.told outside.old.ports.now) (P.told outside.new.ports.now) }
        ensures lent { AreLent outside.old outside.new }
        ensures sent { guest.new.peer.sent ≡ guest.old.peer.sent }
        ensures kept { KeepsKeys (L.contents outside.old.files.now) (L.contents outside.new.files.now) self.old.keys self.new.keys }
    {
        if guest.has_more || guest.peer.is_paused() || !guest.is_open() {
            return Ok(());
        }
        self.read_guest(outside.ports, outside.files, number, guest, room)?;
        Ok(())
    }

    // Answers the HTTP requests that wait. Whether more may be taken of the connection.
    fn take_waiting<L: Files>(&self, files: &mut L, guest: &mut Guest) -> bool
        ensures open { IsTrue result → guest.new.standing ≡ standing.Open }
        ensures served { (v : WorldView) → IsServedGuest v guest.old → IsServedGuest v guest.new }
        ensures guest { IsHeardOf guest.old guest.new }
        ensures files { (name : List ℕ) → L.contents files.new name ≡ L.contents files.old name }
    {
        guest.has_more = false;
        if !guest.peer.is_paused() {
            return guest.is_open();
        }
        self.take_piece(files, guest, &[]);
        guest.has_more = guest.peer.is_paused();
        guest.is_open() && !guest.has_more
    }

    // Takes requests and reads on, as long as more may be taken.
    fn take_all<P: Ports, L: Files, E: Sink>(
        &mut self,
        outside: &mut Outside<'_, '_, '_, P, L, E>,
        number: u64,
        guest: &mut Guest,
        room: &mut [u8],
    ) -> Result<(), Halt>
        requires open { guest.old.standing ≡ standing.Open }
        requires served { IsServedGuest self.old.keeper.world guest.old }
        requires apart { IsNotStewards guest.old.session (session_of self.old.steward) }
        ensures served { OnOk result (IsServedGuest self.new.keeper.world guest.new) }
        ensures turn { TakesTurn self.old self.new guest.old guest.new }
        ensures idle { OnOk result (HasYetToAsk guest.old guest.new self.old.keeper.world self.new.keeper.world) }
        ensures told { OnlyHeard number (P.told outside.old.ports.now) (P.told outside.new.ports.now) }
        ensures lent { AreLent outside.old outside.new }
        ensures sent { guest.new.peer.sent ≡ guest.old.peer.sent }
        ensures kept { KeepsKeys (L.contents outside.old.files.now) (L.contents outside.new.files.now) self.old.keys self.new.keys }
    {
        let mut left = REQUESTS_A_TURN;
        for _ in 0..READS_A_TURN {
            match self.take_and_read(outside, number, guest, room, &mut left)? {
                Course::On => {}
                Course::Over => return Ok(()),
            }
        }
        guest.has_more = true;
        Ok(())
    }

    // Takes requests, and reads on.
    fn take_and_read<P: Ports, L: Files, E: Sink>(
        &mut self,
        outside: &mut Outside<'_, '_, '_, P, L, E>,
        number: u64,
        guest: &mut Guest,
        room: &mut [u8],
        left: &mut u32,
    ) -> Result<Course, Halt>
        requires open { guest.old.standing ≡ standing.Open }
        requires served { IsServedGuest self.old.keeper.world guest.old }
        requires apart { IsNotStewards guest.old.session (session_of self.old.steward) }
        ensures open { IfOk result (λ course. course ≡ courses.On → guest.new.standing ≡ standing.Open) }
        ensures served { OnOk result (IsServedGuest self.new.keeper.world guest.new) }
        ensures turn { TakesTurn self.old self.new guest.old guest.new }
        ensures idle { OnOk result (HasYetToAsk guest.old guest.new self.old.keeper.world self.new.keeper.world) }
        ensures told { OnlyHeard number (P.told outside.old.ports.now) (P.told outside.new.ports.now) }
        ensures lent { AreLent outside.old outside.new }
        ensures sent { guest.new.peer.sent ≡ guest.old.peer.sent }
        ensures kept { KeepsKeys (L.contents outside.old.files.now) (L.contents outside.new.files.now) self.old.keys self.new.keys }
    {
        match self.take_requests(outside.files, outside.err, guest, left)? {
            Course::On => self.read_guest(outside.ports, outside.files, number, guest, room),
            Course::Over => Ok(Course::Over),
        }
    }

    // Reads on. Where nothing more will come, the session ends.
    fn read_guest<P: Ports, L: Files>(
        &mut self,
        ports: &mut P,
        files: &mut L,
        number: u64,
        guest: &mut Guest,
        room: &mut [u8],
    ) -> Result<Course, Halt>
        requires open { guest.old.standing ≡ standing.Open }
        requires served { IsServedGuest self.old.keeper.world guest.old }
        requires apart { IsNotStewards guest.old.session (session_of self.old.steward) }
        ensures open { IfOk result (λ course. course ≡ courses.On → guest.new.standing ≡ standing.Open) }
        ensures served { OnOk result (IsServedGuest self.new.keeper.world guest.new) }
        ensures turn { TakesTurn self.old self.new guest.old guest.new }
        ensures idle { OnOk result (HasYetToAsk guest.old guest.new self.old.keeper.world self.new.keeper.world) }
        ensures told { OnlyHeard number (P.told ports.old) (P.told ports.new) }
        ensures sent { guest.new.peer.sent ≡ guest.old.peer.sent }
        ensures kept { KeepsKeys (L.contents files.old) (L.contents files.new) self.old.keys self.new.keys }
    {
        let count = self.read_and_take(ports, files, number, guest, room);
        self.counts.came(count);
        if !guest.is_open() {
            self.end(guest)?;
            return Ok(Course::Over);
        }
        guest.has_more = guest.peer.is_paused();
        if count == 0 || guest.has_more {
            return Ok(Course::Over);
        }
        Ok(Course::On)
    }

    // Reads, and takes in what came. The answer is how many bytes came.
    fn read_and_take<P: Ports, L: Files>(
        &self,
        ports: &mut P,
        files: &mut L,
        number: u64,
        guest: &mut Guest,
        room: &mut [u8],
    ) -> usize
        ensures served { (v : WorldView) → IsServedGuest v guest.old → IsServedGuest v guest.new }
        ensures guest { IsHeardOf guest.old guest.new }
        ensures told { OnlyHeard number (P.told ports.old) (P.told ports.new) }
        ensures files { (name : List ℕ) → L.contents files.new name ≡ L.contents files.old name }
    {
        let count = read_piece(ports, number, guest, room);
        if count == 0 {
            return 0;
        }
        self.take_piece(files, guest, &room[..count]);
        count
    }

    // Takes bytes in that came. HTTP requests are answered at once.
    fn take_piece<L: Files>(&self, files: &mut L, guest: &mut Guest, piece: &[u8])
        ensures served { (v : WorldView) → IsServedGuest v guest.old → IsServedGuest v guest.new }
        ensures guest { IsHeardOf guest.old guest.new }
        ensures files { (name : List ℕ) → L.contents files.new name ≡ L.contents files.old name }
    {
        let mut site = Site {
            alloc: self.alloc,
            files,
            folder: &self.site,
            origins: self.origins.as_slice(),
            figures: self.figures(),
            key: None,
            calls: 0,
        };
        if guest.peer.hear(piece, self.random, &mut site).is_err() {
            guest.leave();
        }
        if site.calls > 0 {
            guest.heard = self.time;
        }
    }

    // Takes whole requests, as long as there are some and more may be taken.
    fn take_requests<L: Files, E: Sink>(
        &mut self,
        files: &mut L,
        err: &mut E,
        guest: &mut Guest,
        left: &mut u32,
    ) -> Result<Course, Halt>
        requires open { guest.old.standing ≡ standing.Open }
        requires served { IsServedGuest self.old.keeper.world guest.old }
        requires apart { IsNotStewards guest.old.session (session_of self.old.steward) }
        ensures open { IfOk result (λ course. course ≡ courses.On → guest.new.standing ≡ standing.Open) }
        ensures served { OnOk result (IsServedGuest self.new.keeper.world guest.new) }
        ensures turn { TakesTurn self.old self.new guest.old guest.new }
        ensures idle { OnOk result (HasYetToAsk guest.old guest.new self.old.keeper.world self.new.keeper.world) }
        ensures sent { guest.new.peer.sent ≡ guest.old.peer.sent }
        ensures kept { KeepsKeys (L.contents files.old) (L.contents files.new) self.old.keys self.new.keys }
    {
        for _ in 0..=REQUESTS_A_TURN {
            if *left == 0 {
                break;
            }
            if guest.peer.output().len() >= FULL {
                break;
            }
            match self.take_next(files, err, guest, left)? {
                Some(course) => return Ok(course),
                None => {}
            }
        }
        guest.has_more = true;
        Ok(Course::Over)
    }

    // Takes what comes next, and answers how the turn goes on where no more may be taken now. Where the connection is served no more, its session ends.
    fn take_next<L: Files, E: Sink>(
        &mut self,
        files: &mut L,
        err: &mut E,
        guest: &mut Guest,
        left: &mut u32,
    ) -> Result<Option<Course>, Halt>
        requires open { guest.old.standing ≡ standing.Open }
        requires served { IsServedGuest self.old.keeper.world guest.old }
        requires apart { IsNotStewards guest.old.session (session_of self.old.steward) }
        ensures open { IfOk result (λ course. course ≢ Some courses.Over → guest.new.standing ≡ standing.Open) }
        ensures served { OnOk result (IsServedGuest self.new.keeper.world guest.new) }
        ensures turn { TakesTurn self.old self.new guest.old guest.new }
        ensures idle { OnOk result (HasYetToAsk guest.old guest.new self.old.keeper.world self.new.keeper.world) }
        ensures sent { guest.new.peer.sent ≡ guest.old.peer.sent }
        ensures key { HasHeardKey guest.old.peer guest.old.key guest.new.key }
        ensures kept { KeepsKeys (L.contents files.old) (L.contents files.new) self.old.keys self.new.keys }
    {
        let taken = self.take_one(files, err, guest)?;
        if !guest.is_open() {
            self.end(guest)?;
            return Ok(Some(Course::Over));
        }
        match taken {
            Taken::Request => {
                *left = left.saturating_sub(1);
                Ok(None)
            }
            Taken::Other => Ok(None),
            Taken::Nothing => Ok(Some(Course::On)),
        }
    }

    // Takes what comes next.
    fn take_one<L: Files, E: Sink>(
        &mut self,
        files: &mut L,
        err: &mut E,
        guest: &mut Guest,
    ) -> Result<Taken, Halt>
        requires open { guest.old.standing ≡ standing.Open }
        requires served { IsServedGuest self.old.keeper.world guest.old }
        requires apart { IsNotStewards guest.old.session (session_of self.old.steward) }
        ensures served { OnOk result (IsServedGuest self.new.keeper.world guest.new) }
        ensures turn { TakesTurn self.old self.new guest.old guest.new }
        ensures idle { OnOk result (HasYetToAsk guest.old guest.new self.old.keeper.world self.new.keeper.world) }
        ensures sent { guest.new.peer.sent ≡ guest.old.peer.sent }
        ensures key { HasHeardKey guest.old.peer guest.old.key guest.new.key }
        ensures kept { KeepsKeys (L.contents files.old) (L.contents files.new) self.old.keys self.new.keys }
    {
        match guest.peer.next() {
            Heard::NotYet => Ok(Taken::Nothing),
            Heard::Memory => {
                guest.leave();
                Ok(Taken::Other)
            }
            Heard::Closed => {
                guest.close();
                Ok(Taken::Other)
            }
            Heard::Hello(digest) => {
                self.greet(files, err, guest, digest)?;
                Ok(Taken::Other)
            }
            Heard::Request(request) => {
                self.take_request(guest, asked(request))?;
                Ok(Taken::Request)
            }
        }
    }

    // Takes a Hello: the first message where keys are wanted, passed over where they are not, and no request behind the first one.
    #[inline(never)]
    fn greet<L: Files, E: Sink>(
        &mut self,
        files: &mut L,
        err: &mut E,
        guest: &mut Guest,
        digest: [u8; 32],
    ) -> Result<(), Halt>
        requires open { guest.old.standing ≡ standing.Open }
        requires served { IsServedGuest self.old.keeper.world guest.old }
        requires apart { IsNotStewards guest.old.session (session_of self.old.steward) }
        ensures served { OnOk result (IsServedGuest self.new.keeper.world guest.new) }
        ensures turn { TakesTurn self.old self.new guest.old guest.new }
        ensures idle { OnOk result (HasYetToAsk guest.old guest.new self.old.keeper.world self.new.keeper.world) }
        ensures sent { guest.new.peer.sent ≡ guest.old.peer.sent }
        ensures key { (guest.new.key ≡ guest.old.key) ⊎ (guest.new.key ≡ Some digest) }
        ensures kept { KeepsKeys (L.contents files.old) (L.contents files.new) self.old.keys self.new.keys }
    {
        if guest.has_spoken {
            return self.take_request(guest, Request::Bad);
        }
        let Some(keys) = &mut self.keys else {
            return Ok(());
        };
        guest.has_spoken = true;
        if keys.look(files, err, &digest) {
            guest.key = Some(digest);
            return Ok(());
        }
        self.counts.refuse();
        guest.leave();
        Ok(())
    }
}
