//! The top call of the server.
ghost use Rattle.std.specs.Prelude.{◌≡◌, ◌⊎◌, ℕ, List, [], Option, None, false, IfOk, IfErr, OnErr, OnOk, length, map, string_bytes};
ghost use Rattle.sv_bytes.specs.Faults.{Rose};
ghost use Rattle.sv_bytes.specs.Writing.{GrewOrRose};
ghost use Rattle.sv_journal.specs.History.{commit_of};
ghost use Rattle.sv_journal.specs.Laws.{AreWithinLimits};
ghost use Rattle.sv_living.specs.Sessions.{open_sessions, AreInOrder};
ghost use Rattle.sv_living.specs.World.{heeded_in};
ghost use Rattle.sv_worldfile.specs.Limits.{IsGoodWorldFile};
ghost use Rattle.sv_ports.specs.Traffic.{nothing_told};
ghost use Rattle.sv_office.specs.Offices.{session_of};
ghost use Rattle.sv_office.specs.Renewing.{AreHeldFor};
ghost use Rattle.sv_host.specs.Causes.{EndsFor, HasStopped, IsAtEnd, IsHalted, IsPrepared, WasServed, WhyBehind, WhyEnds, WhyStopped, WroteFirst};
ghost use Rattle.sv_host.specs.Inputs.{WasToldToStop};
ghost use Rattle.sv_host.specs.Joining.{JoinByKeys, LetsStewardIn, MayJoinByKeys};
ghost use Rattle.sv_host.specs.Lines.{standing_line};
ghost use Rattle.sv_host.specs.Rooms.{AnyEntry, AreServed, Continues, IsAnEnd};
ghost use Rattle.sv_host.specs.Served.{HostBreaksOff, OnlyWrote};
ghost use Rattle.sv_host.specs.Staffing.{AreRead, IsOfficeFor, IsStaffFor};
ghost use Rattle.sv_host.specs.Statuses.{EndsBy, IsEarly, IsStatus, IsToldLast};
ghost use Rattle.sv_host.specs.Words.{AsksNothing, asked_by};
ghost use Rattle.sv_host.specs.declared.ending.HostEnd.TheVariants as endings;

use crate::ending::{HostEnd, Stopped, status_of, tell};
use crate::hall::{DoorFault, Doors, Folders};
use crate::host::Host;
use crate::opening::{
    Prepared, Staff, folder_of, host_of, is_authority, keeper_of, keys_of, manners_of, owned,
    prepared_of, staff_of,
};
use crate::options::{OptionFault, Options, options_of};
use crate::telling::tell_standing;
use std::alloc::{AllocError, Global};
use std::hash::RandomState;
use std::sync::Wait;
use sv_bytes::{Files, Sink};
use sv_keeper::Keeper;
use sv_log::Folder;
use sv_office::{Halt, Outside};
use sv_ports::{Clock, Ports};

/// How many bytes are read of a connection at once.
const PIECE: usize = 4096;

// Tells how a kept world stands.
fn tell_keeper<F: Folder, E: Sink>(word: &str, name: &str, keeper: &Keeper<F>, err: &mut E)
    ensures { keeper.now.is_broken ≡ false → GrewOrRose (E.taken err.old) (E.taken err.new) (E.faults err.old) (E.faults err.new)
        (standing_line word.now name.now (length keeper.now.world.history) (commit_of (heeded_in keeper.now.world))) }
{
    tell_standing(word, name, keeper.entries(), keeper.commit(), err);
}

fn halted<F: Folder>(alloc: Global, host: &Host<F>, halt: Halt) -> Result<HostEnd, AllocError>
    ensures { IfOk result IsHalted }
{
    match halt {
        Halt::Log => Ok(HostEnd::Disk(owned(alloc, host.office.keeper.file())?)),
        Halt::Ports => Ok(HostEnd::Link),
        Halt::Memory | Halt::Steward => Ok(HostEnd::Memory),
    }
}

fn door_of<D: Doors>(alloc: Global, options: &Options<'_>, doors: &mut D) -> Result<D::P, HostEnd>
    ensures why { IfErr result (WhyStopped (D.refuses doors.old options.now.at.now) options.now.at.now) }
    ensures new { D.told doors.old ≡ nothing_told → IfOk result (λ ports. D.P.told ports ≡ nothing_told) }
    ensures same { OnErr result (D.told doors.new ≡ D.told doors.old) }
{
    match doors.open(options.at, options.stops) {
        Ok(ports) => Ok(ports),
        Err(DoorFault::Busy) => Err(HostEnd::Busy(owned(alloc, options.at)?)),
        Err(DoorFault::Failed) => Err(HostEnd::Link),
    }
}

/// What the server works with. Each is borrowed for itself.
#[derive(Drop)]
pub struct HostParts<'r, 'd, 's, 'c, 'l, 'e, R, D, S, C, L, E> {
    pub rt: &'r R,
    pub alloc: Global,
    pub random: RandomState,
    pub doors: &'d mut D,
    pub folders: &'s mut S,
    pub clock: &'c mut C,
    pub files: &'l mut L,
    pub err: &'e mut E,
}

// The steward joins and reports what is due, and all is made durable, before anybody is there.
#[tactic(auto, using(crate::proofs::Top2::none_served))]
fn begin<F: Folder>(host: &mut Host<F>) -> Result<(), Halt>
    requires nobody { host.old.room.guests ≡ [] }
    ensures nobody { host.new.room.guests ≡ [] }
    ensures goes { Continues host.old.office.keeper.world host.new.office.keeper.world }
    ensures keys { host.new.office.keys ≡ host.old.office.keys }
    ensures joins { LetsStewardIn host.old.office.keeper.world host.new.office.keeper.world }
    ensures served { OnOk result (AreServed host.new.office.keeper.world (session_of host.new.office.steward) host.new.room.guests) }
{
    host.office.begin()
}

// Serves who comes through a door, until it is told to stop.
fn serve_over<R: Wait, P: Ports, C: Clock, L: Files, E: Sink, F: Folder>(
    rt: &R,
    ports: &mut P,
    files: &mut L,
    err: &mut E,
    piece: &mut [u8],
    clock: &mut C,
    host: &mut Host<F>,
) -> Result<(), Halt>
    requires served { AreServed host.old.office.keeper.world (session_of host.old.office.steward) host.old.room.guests }
    requires nobody { host.old.room.guests ≡ [] }
    ensures done { OnOk result (IsAtEnd F.disk F.is_honest host.new.office.keeper) }
    ensures goes { Continues host.old.office.keeper.world host.new.office.keeper.world }
    ensures joins { JoinByKeys (L.contents files.old) host.old.office.keys host.old.office.keeper.world host.new.office.keeper.world }
    ensures last { OnOk result (OnlyWrote IsAnEnd (P.told ports.old) (P.told ports.new) host.old.office.keeper.world host.new.office.keeper.world) }
    ensures asked { OnOk result (P.told ports.old ≡ nothing_told → WasToldToStop (P.told ports.new)) }
    ensures sent { OnlyWrote AnyEntry (P.told ports.old) (P.told ports.new) host.old.office.keeper.world host.new.office.keeper.world }
{
    let mut outside = Outside { ports, files, err };
    host.serve(rt, &mut outside, piece, clock)?;
    host.office.keeper.is_lawful();
    Ok(())
}

// Tells where a door is.
fn tell_door<D: Doors, E: Sink, F: Folder>(
    alloc: Global,
    options: &Options<'_>,
    doors: &D,
    ports: &D::P,
    keeper: &Keeper<F>,
    err: &mut E,
) {
    let mut address = String::new(alloc);
    let name = if doors.address(ports, &mut address) {
        address.as_str()
    } else {
        options.at
    };
    tell_keeper("listening", name, keeper, err);
}

// Serves who comes through a door that was opened, until it is told to stop, and tells where it is.
#[tactic(auto, using(crate::proofs::Through::nothing_wrote, crate::proofs::Written::continues_same, crate::proofs::Joined::join_same))]
fn serve_door<R: Wait, D: Doors, S, C: Clock, L: Files, E: Sink, F: Folder>(
    parts: &mut HostParts<'_, '_, '_, '_, '_, '_, R, D, S, C, L, E>,
    options: &Options<'_>,
    ports: &mut D::P,
    host: &mut Host<F>,
) -> Result<(), Halt>
    requires served { AreServed host.old.office.keeper.world (session_of host.old.office.steward) host.old.room.guests }
    requires nobody { host.old.room.guests ≡ [] }
    ensures done { OnOk result (IsAtEnd F.disk F.is_honest host.new.office.keeper) }
    ensures goes { Continues host.old.office.keeper.world host.new.office.keeper.world }
    ensures joins { JoinByKeys (L.contents parts.old.files.now) host.old.office.keys host.old.office.keeper.world host.new.office.keeper.world }
    ensures last { OnOk result (OnlyWrote IsAnEnd (D.P.told ports.old) (D.P.told ports.new) host.old.office.keeper.world host.new.office.keeper.world) }
    ensures asked { OnOk result (D.P.told ports.old ≡ nothing_told → WasToldToStop (D.P.told ports.new)) }
    ensures sent { OnlyWrote AnyEntry (D.P.told ports.old) (D.P.told ports.new) host.old.office.keeper.world host.new.office.keeper.world }
{
    tell_door(
        parts.alloc,
        options,
        parts.doors,
        ports,
        &host.office.keeper,
        parts.err,
    );
    let mut piece = vec![in parts.alloc; 0u8; PIECE]?;
    serve_over(
        parts.rt,
        ports,
        parts.files,
        parts.err,
        piece.as_mut_slice(),
        parts.clock,
        host,
    )
}

// The door is opened, it is served, and the door is closed.
#[tactic(auto, using(crate::proofs::Top2::halted_why, crate::proofs::Through::nothing_wrote, crate::proofs::Through::between_wrote, crate::proofs::Through::between_asked, crate::proofs::Written::continues_same, crate::proofs::Joined::join_same))]
fn serve_between<R: Wait, D: Doors, S, C: Clock, L: Files, E: Sink, F: Folder>(
    parts: &mut HostParts<'_, '_, '_, '_, '_, '_, R, D, S, C, L, E>,
    options: &Options<'_>,
    host: &mut Host<F>,
) -> Result<(), HostEnd>
    requires served { AreServed host.old.office.keeper.world (session_of host.old.office.steward) host.old.room.guests }
    requires nobody { host.old.room.guests ≡ [] }
    ensures done { OnOk result (IsAtEnd F.disk F.is_honest host.new.office.keeper) }
    ensures why { IfErr result (WhyStopped (D.refuses parts.old.doors.now options.now.at.now) options.now.at.now) }
    ensures goes { Continues host.old.office.keeper.world host.new.office.keeper.world }
    ensures joins { JoinByKeys (L.contents parts.old.files.now) host.old.office.keys host.old.office.keeper.world host.new.office.keeper.world }
    ensures last { OnOk result (OnlyWrote IsAnEnd (D.told parts.old.doors.now) (D.told parts.new.doors.now) host.old.office.keeper.world host.new.office.keeper.world) }
    ensures asked { OnOk result (D.told parts.old.doors.now ≡ nothing_told → WasToldToStop (D.told parts.new.doors.now)) }
    ensures sent { OnlyWrote AnyEntry (D.told parts.old.doors.now) (D.told parts.new.doors.now) host.old.office.keeper.world host.new.office.keeper.world }
{
    let mut ports = door_of(parts.alloc, options, parts.doors)?;
    let served = serve_door(parts, options, &mut ports, host);
    parts.doors.close(ports);
    match served {
        Ok(()) => Ok(()),
        Err(halt) => Err(halted(parts.alloc, host, halt)?),
    }
}

// The steward joins, and then it is served, until it is told to stop.
#[tactic(auto, using(crate::proofs::Top2::halted_why, crate::proofs::Through::nothing_wrote, crate::proofs::Written::continues_then))]
fn serve_at<R: Wait, D: Doors, S, C: Clock, L: Files, E: Sink, F: Folder>(
    parts: &mut HostParts<'_, '_, '_, '_, '_, '_, R, D, S, C, L, E>,
    options: &Options<'_>,
    host: &mut Host<F>,
) -> Result<(), HostEnd>
    requires nobody { host.old.room.guests ≡ [] }
    ensures done { OnOk result (IsAtEnd F.disk F.is_honest host.new.office.keeper) }
    ensures why { IfErr result (WhyStopped (D.refuses parts.old.doors.now options.now.at.now) options.now.at.now) }
    ensures goes { Continues host.old.office.keeper.world host.new.office.keeper.world }
    ensures joins { JoinByKeys (L.contents parts.old.files.now) host.old.office.keys host.old.office.keeper.world host.new.office.keeper.world }
    ensures last { OnOk result (OnlyWrote IsAnEnd (D.told parts.old.doors.now) (D.told parts.new.doors.now) host.old.office.keeper.world host.new.office.keeper.world) }
    ensures asked { OnOk result (D.told parts.old.doors.now ≡ nothing_told → WasToldToStop (D.told parts.new.doors.now)) }
    ensures sent { OnlyWrote AnyEntry (D.told parts.old.doors.now) (D.told parts.new.doors.now) host.old.office.keeper.world host.new.office.keeper.world }
{
    if let Err(halt) = begin(host) {
        return Err(halted(parts.alloc, host, halt)?);
    }
    serve_between(parts, options, host)
}

// Serves a world, and answers how it stands then.
#[tactic(auto, using(crate::proofs::Through::nothing_wrote, crate::proofs::Written::continues_same, crate::proofs::Joined::join_same))]
fn serve_host<R: Wait, D: Doors, S, C: Clock, L: Files, E: Sink, F: Folder>(
    parts: &mut HostParts<'_, '_, '_, '_, '_, '_, R, D, S, C, L, E>,
    options: &Options<'_>,
    host: &mut Host<F>,
) -> Result<Stopped, HostEnd>
    requires nobody { host.old.room.guests ≡ [] }
    requires office { IsOfficeFor (asked_by options.now) host.old.office.policy.authority host.old.office }
    requires ended { open_sessions host.old.office.keeper.world.history ≡ [] }
    requires order { AreInOrder host.old.office.keeper.world.history }
    ensures done { (named : Option (List ℕ)) → AreHeldFor (L.contents parts.old.files.now) named host.old.office.keys
        → IfOk result (HasStopped F.disk F.is_honest (MayJoinByKeys (L.contents parts.old.files.now) named) host.old.office.keeper
        (D.told parts.old.doors.now) (D.told parts.new.doors.now) options.now.folder.now) }
    ensures why { IfErr result (WhyStopped (D.refuses parts.old.doors.now options.now.at.now) options.now.at.now) }
    ensures goes { Continues host.old.office.keeper.world host.new.office.keeper.world }
    ensures joins { JoinByKeys (L.contents parts.old.files.now) host.old.office.keys host.old.office.keeper.world host.new.office.keeper.world }
    ensures sent { OnlyWrote AnyEntry (D.told parts.old.doors.now) (D.told parts.new.doors.now) host.old.office.keeper.world host.new.office.keeper.world }
{
    let folder = owned(parts.alloc, options.folder)?;
    serve_at(parts, options, host)?;
    let keeper = &host.office.keeper;
    Ok(Stopped {
        folder,
        entries: keeper.entries(),
        commit: keeper.commit(),
    })
}

// Serves a kept world.
fn serve_kept<R: Wait, D: Doors, S, C: Clock, L: Files, E: Sink, F: Folder + Drop>(
    parts: &mut HostParts<'_, '_, '_, '_, '_, '_, R, D, S, C, L, E>,
    options: &Options<'_>,
    keeper: Keeper<F>,
    staff: Staff,
    authority: bool,
) -> Result<Stopped, HostEnd>
    requires limits { AreWithinLimits keeper.world.rules }
    requires ended { open_sessions keeper.world.history ≡ [] }
    requires staff { IsStaffFor (asked_by options.now) staff }
    ensures done { (named : Option (List ℕ)) → AreHeldFor (L.contents parts.old.files.now) named staff.keys
        → IfOk result (HasStopped F.disk F.is_honest (MayJoinByKeys (L.contents parts.old.files.now) named) keeper
        (D.told parts.old.doors.now) (D.told parts.new.doors.now) options.now.folder.now) }
    ensures why { IfErr result (WhyStopped (D.refuses parts.old.doors.now options.now.at.now) options.now.at.now) }
    ensures broke { (named : Option (List ℕ)) → AreHeldFor (L.contents parts.old.files.now) named staff.keys
        → HostBreaksOff (MayJoinByKeys (L.contents parts.old.files.now) named) (D.told parts.old.doors.now) (D.told parts.new.doors.now) keeper.world }
{
    tell_keeper("start", options.folder, &keeper, parts.err);
    keeper.is_lawful();
    let policy = manners_of(options, authority);
    let mut host = host_of(parts.alloc, keeper, staff, parts.random, policy);
    let served = serve_host(parts, options, &mut host);
    // However it ended.
    host.office.keeper.is_lawful();
    served
}

// Opens the folder, and serves its world.
#[tactic(auto, using(crate::proofs::Top2::folder_behind, crate::proofs::Rules::limits_in))]
fn serve_prepared<R: Wait, D: Doors, S: Folders, C: Clock, L: Files, E: Sink>(
    parts: &mut HostParts<'_, '_, '_, '_, '_, '_, R, D, S, C, L, E>,
    options: &Options<'_>,
    prepared: Prepared,
    staff: Staff,
) -> Result<Stopped, HostEnd>
    requires good { IsGoodWorldFile prepared.file }
    requires staff { IsStaffFor (asked_by options.now) staff }
    ensures done { (contents : List ℕ → Option (List ℕ)) → IsPrepared (contents options.now.world.now) (asked_by options.now) prepared.file prepared.bytes.items
        → AreRead contents (L.contents parts.old.files.now) (asked_by options.now).keys staff.keys
        → IfOk result (WasServed S.F.disk S.F.is_honest (S.opens parts.old.folders.now) contents (D.told parts.old.doors.now) (D.told parts.new.doors.now)
        (asked_by options.now)) }
    ensures why { (contents : List ℕ → Option (List ℕ)) → IsPrepared (contents options.now.world.now) (asked_by options.now) prepared.file prepared.bytes.items
        → AreRead contents (L.contents parts.old.files.now) (asked_by options.now).keys staff.keys
        → IfErr result (WhyBehind S.F.disk S.F.is_honest (S.opens parts.old.folders.now) contents (D.told parts.old.doors.now) (D.told parts.new.doors.now)
        S.F.faults (S.refuses parts.old.folders.now) (D.refuses parts.old.doors.now) (asked_by options.now)) }
    ensures wrote { (contents : List ℕ → Option (List ℕ)) → IsPrepared (contents options.now.world.now) (asked_by options.now) prepared.file prepared.bytes.items
        → AreRead contents (L.contents parts.old.files.now) (asked_by options.now).keys staff.keys
        → OnErr result (WroteFirst S.F.disk S.F.is_honest (S.opens parts.old.folders.now) contents (D.told parts.old.doors.now) (D.told parts.new.doors.now)
        (asked_by options.now)) }
{
    let alloc = parts.alloc;
    let authority = is_authority(prepared.file.results);
    let folder = folder_of(alloc, options, parts.folders)?;
    match keeper_of(alloc, options, folder, prepared) {
        Ok(keeper) => serve_kept(parts, options, keeper, staff, authority),
        Err(ending) => Err(ending),
    }
}

// Reads the files, and serves what they ask for.
#[tactic(auto, using(crate::proofs::Top2::keys_before, crate::proofs::Top2::late))]
fn run<R: Wait, D: Doors, S: Folders, C: Clock, L: Files, E: Sink>(
    parts: &mut HostParts<'_, '_, '_, '_, '_, '_, R, D, S, C, L, E>,
    options: &Options<'_>,
) -> Result<Stopped, HostEnd>
    ensures done { IfOk result (WasServed S.F.disk S.F.is_honest (S.opens parts.old.folders.now) (L.contents parts.old.files.now)
        (D.told parts.old.doors.now) (D.told parts.new.doors.now) (asked_by options.now)) }
    ensures wrote { OnErr result (WroteFirst S.F.disk S.F.is_honest (S.opens parts.old.folders.now) (L.contents parts.old.files.now)
        (D.told parts.old.doors.now) (D.told parts.new.doors.now) (asked_by options.now)) }
    ensures why { IfErr result (WhyEnds S.F.disk S.F.is_honest (S.opens parts.old.folders.now) (L.contents parts.old.files.now)
        (D.told parts.old.doors.now) (D.told parts.new.doors.now)
        S.F.faults (S.refuses parts.old.folders.now) (D.refuses parts.old.doors.now)
        (Rose (L.faults parts.old.files.now) (L.faults parts.new.files.now)) (asked_by options.now)) }
    ensures apart { IfErr result (λ e. IsEarly e → (parts.new.folders.now ≡ parts.old.folders.now) × (parts.new.doors.now ≡ parts.old.doors.now)) }
    ensures quiet { IfErr result (λ e. IsEarly e → parts.new.err.now ≡ parts.old.err.now) }
{
    let prepared = prepared_of(parts.alloc, options, parts.files)?;
    let keys = keys_of(parts.alloc, options, parts.files, parts.err)?;
    let shape = prepared.file.world.shape;
    let staff = staff_of(parts.alloc, options, shape, keys)?;
    serve_prepared(parts, options, prepared, staff)
}

fn ending_of<R: Wait, D: Doors, S: Folders, C: Clock, L: Files, E: Sink>(
    parts: &mut HostParts<'_, '_, '_, '_, '_, '_, R, D, S, C, L, E>,
    words: &[String],
) -> HostEnd
    ensures words { AsksNothing (map string_bytes words.now) → (result ≡ endings.Words) ⊎ (result ≡ endings.Memory) }
    ensures why { EndsFor S.F.disk S.F.is_honest (S.opens parts.old.folders.now) (L.contents parts.old.files.now)
        (D.told parts.old.doors.now) (D.told parts.new.doors.now)
        S.F.faults (S.refuses parts.old.folders.now) (D.refuses parts.old.doors.now)
        (map string_bytes words.now) (Rose (L.faults parts.old.files.now) (L.faults parts.new.files.now)) result }
    ensures apart { IsEarly result → (parts.new.folders.now ≡ parts.old.folders.now) × (parts.new.doors.now ≡ parts.old.doors.now) }
    ensures quiet { IsEarly result → parts.new.err.now ≡ parts.old.err.now }
{
    let options = match options_of(parts.alloc, words) {
        Ok(options) => options,
        Err(OptionFault::Words) => return HostEnd::Words,
        Err(OptionFault::Memory) => return HostEnd::Memory,
    };
    match run(parts, &options) {
        Ok(stopped) => HostEnd::Done(stopped),
        Err(ending) => ending,
    }
}

/// Serves a living world, and answers the status with which the program ends.
///
/// The words leave out the program's own name. They are `host WORLD DIR` and options. The status is 0 where it was told to stop: then each
/// session has its End, and its log is durable.
pub fn run_host<R: Wait, D: Doors, S: Folders, C: Clock, L: Files, E: Sink>(
    parts: &mut HostParts<'_, '_, '_, '_, '_, '_, R, D, S, C, L, E>,
    words: &[String],
) -> u8
    ensures range { IsStatus result }
    ensures words { AsksNothing (map string_bytes words.now) → (result ≡ 2) ⊎ (result ≡ 8) }
    ensures apart { (result ≡ 2) ⊎ ((result ≡ 3) ⊎ (result ≡ 4)) → (parts.new.folders.now ≡ parts.old.folders.now) × (parts.new.doors.now ≡ parts.old.doors.now) }
    ensures ends { EndsBy (λ ending. IsToldLast E.taken E.faults parts.old.err.now parts.new.err.now ending
        × EndsFor S.F.disk S.F.is_honest (S.opens parts.old.folders.now) (L.contents parts.old.files.now)
        (D.told parts.old.doors.now) (D.told parts.new.doors.now)
        S.F.faults (S.refuses parts.old.folders.now) (D.refuses parts.old.doors.now)
        (map string_bytes words.now) (Rose (L.faults parts.old.files.now) (L.faults parts.new.files.now)) ending) result }
{
    let ending = ending_of(parts, words);
    tell(&ending, parts.err);
    status_of(&ending)
}
