//! What is read and opened before anybody is served.
ghost use Rattle.std.specs.Prelude.{◌≡◌, ◌≢◌, ◌⊎◌, ℕ, List, [], None, Ok, IfOk, IfErr, IsErr, is_some, map, option_map, string_bytes};
ghost use Rattle.std.specs.Option.{ForSome, option_copied};
ghost use Rattle.sv_bytes.specs.Faults.{Rose};
ghost use Rattle.sv_bytes.specs.Writing.{GrewOrRose};
ghost use Rattle.sv_journal.specs.Laws.{AreWithinLimits};
ghost use Rattle.sv_log.specs.Rests.{IsAtRest};
ghost use Rattle.sv_keeper.specs.Opened.{IsOpened};
ghost use Rattle.sv_living.specs.World.{WorldView};
ghost use Rattle.sv_office.specs.Knowing.{IsTrusted, IsUpToDate};
ghost use Rattle.sv_office.specs.Offices.{session_of};
ghost use Rattle.sv_scenario.specs.Lines.{fault_line};
ghost use Rattle.sv_worldfile.specs.Limits.{IsGoodWorldFile};
ghost use Rattle.sv_worldfile.specs.WorldFiles.{world_file_of};
ghost use Rattle.sv_host.specs.Causes.{cause_word, file_place, is_authority, line_place, line_word, named_or, start_in};
ghost use Rattle.sv_host.specs.Causes.{EndsUnopened, IsFileFront, IsPrepared, WhyBefore, WhyFaulty, WhyNoFolder, WhyNoKeys, WhyUnopened, WhyUnread};
ghost use Rattle.sv_host.specs.Lines.{open_line};
ghost use Rattle.sv_host.specs.Staffing.{AreKeysFor, IsStaffFor, manners_for};
ghost use Rattle.sv_host.specs.Words.{IsLocal, asked_by};

use crate::ending::HostEnd;
use crate::hall::{FolderFault, Folders};
use crate::host::Host;
use crate::options::{Options, is_local};
use crate::room::Room;
use crate::telling::tell_open;
use std::alloc::{AllocError, Global};
use std::hash::RandomState;
use sv_bytes::{FileFault, Files, Sink, read_all};
use sv_core::Opened;
use sv_keeper::{Keeper, LineCause, OpenFault, Opening};
use sv_keys::{Keys, KeysFault};
use sv_living::Stewards;
use sv_log::{Cause, Folder, LogRefusal};
use sv_office::{Ages, Office, Policy, STEWARD_NUMBER, Steward};
use sv_site::Counts;
use sv_world::Shape;
use sv_worldfile::{
    MOST_BYTES, ReadFault, Results, ScenarioFault, WorldFile, append_fault_line, read_world,
};

/// A world's file is read so far and no further: one byte more than it may have.
const READ_LIMIT: usize = MOST_BYTES + 1;

/// How many zeros are kept ahead of the log's text.
const SPARE: usize = 1 << 20;

pub fn owned(alloc: Global, name: &str) -> Result<String, AllocError>
    ensures { IfOk result (λ owned. string_bytes owned ≡ name.now) }
{
    String::from_str(alloc, name)
}

/// The bytes of the world's file.
fn world_bytes<L: Files>(alloc: Global, files: &mut L, name: &str) -> Result<Vec<u8>, HostEnd>
    ensures front { IfOk result (λ bytes. IsFileFront (L.contents files.old name.now) bytes.items) }
    ensures why { IfErr result (WhyUnread name.now (Rose (L.faults files.old) (L.faults files.new))) }
    ensures same { (n : List ℕ) → L.contents files.new n ≡ L.contents files.old n }
{
    match read_all(alloc, files, name, READ_LIMIT) {
        Ok(bytes) => Ok(bytes),
        Err(FileFault::Failed) => Err(HostEnd::File(owned(alloc, name)?)),
        Err(FileFault::Memory) => Err(HostEnd::Memory),
    }
}

/// The line that tells of a fault.
fn line_of_fault(alloc: Global, fault: &ScenarioFault) -> Result<String, AllocError>
    ensures { IfOk result (λ line. string_bytes line ≡ fault_line fault.now) }
{
    let mut line = String::new(alloc);
    append_fault_line(fault, &mut line)?;
    Ok(line)
}

fn world_of(alloc: Global, bytes: &[u8]) -> Result<WorldFile, HostEnd>
    ensures good { IfOk result IsGoodWorldFile }
    ensures read { IfOk result (λ file. world_file_of bytes.now ≡ Ok file) }
    ensures why { IfErr result (WhyFaulty bytes.now) }
{
    match read_world(alloc, bytes) {
        Ok(file) => Ok(file),
        Err(ReadFault::Scenario(fault)) => Err(HostEnd::World(line_of_fault(alloc, &fault)?)),
        Err(ReadFault::Memory) => Err(HostEnd::Memory),
    }
}

fn word_of(cause: Cause) -> &'static str
    ensures { result.now ≡ cause_word cause }
{
    match cause {
        Cause::Failed => "failed",
        Cause::Memory => "memory",
        Cause::Missing => "missing",
        Cause::Empty => "empty",
        Cause::Misnamed => "name",
        Cause::Behind => "behind",
        Cause::Sum => "sum",
        Cause::World => "world",
    }
}

fn word_of_line(cause: LineCause) -> &'static str
    ensures { result.now ≡ line_word cause }
{
    match cause {
        LineCause::Unread => "line",
        LineCause::Session => "session",
        LineCause::Other => "reply",
    }
}

/// The file that is at fault, or else the folder.
fn named_or<'a>(folder: &'a str, file: &'a str) -> &'a str
    ensures { result.now ≡ named_or folder.now file.now }
{
    if file.is_empty() { folder } else { file }
}

/// A line of a file, and what is wrong there.
fn line_place(alloc: Global, file: &str, line: u64, word: &str) -> Result<String, AllocError>
    ensures { IfOk result (λ place. string_bytes place ≡ line_place file.now line word.now) }
{
    format!(in alloc; "{file}:{line} {word}")
}

/// The same of a whole file, where the line is 0.
#[tactic(auto, using(crate::proofs::Top2::at_line))]
fn file_place(alloc: Global, file: &str, line: u64, word: &str) -> Result<String, AllocError>
    ensures { IfOk result (λ place. string_bytes place ≡ file_place file.now line word.now) }
{
    if line == 0 {
        format!(in alloc; "{file} {word}")
    } else {
        line_place(alloc, file, line, word)
    }
}

fn refused(alloc: Global, folder: &str, refusal: &LogRefusal) -> Result<HostEnd, AllocError>
    ensures { IfOk result (EndsUnopened folder.now (OpenFault.Refused refusal.now)) }
{
    match refusal.cause {
        Cause::Failed => {
            let file = named_or(folder, refusal.file.as_str());
            Ok(HostEnd::Disk(owned(alloc, file)?))
        }
        Cause::Memory => Ok(HostEnd::Memory),
        cause => {
            let file = named_or(folder, refusal.file.as_str());
            let word = word_of(cause);
            let place = file_place(alloc, file, refusal.line, word)?;
            Ok(HostEnd::Log(place))
        }
    }
}

/// How it ends where the log is not opened.
fn unopened(alloc: Global, folder: &str, fault: &OpenFault) -> Result<HostEnd, AllocError>
    ensures { IfOk result (EndsUnopened folder.now fault.now) }
{
    match fault {
        OpenFault::Refused(refusal) => refused(alloc, folder, refusal),
        OpenFault::Line { file, line, cause } => {
            let word = word_of_line(*cause);
            let place = line_place(alloc, file.as_str(), *line, word)?;
            Ok(HostEnd::Log(place))
        }
        OpenFault::Disk => Ok(HostEnd::Disk(owned(alloc, folder)?)),
        OpenFault::Memory => Ok(HostEnd::Memory),
    }
}

/// The folder of the log.
pub fn folder_of<D: Folders>(
    alloc: Global,
    options: &Options<'_>,
    folders: &mut D,
) -> Result<D::F, HostEnd>
    ensures opened { IfOk result (D.opens folders.old options.now.folder.now) }
    ensures rest { IfOk result (λ folder. D.F.is_honest folder → IsAtRest (D.F.disk folder)) }
    ensures why { IfErr result (WhyNoFolder (D.refuses folders.old options.now.folder.now) options.now.folder.now) }
{
    match folders.open(options.folder, options.syncs) {
        Ok(folder) => Ok(folder),
        Err(FolderFault::Busy) => Err(HostEnd::Busy(owned(alloc, options.folder)?)),
        Err(FolderFault::Failed) => Err(HostEnd::Disk(owned(alloc, options.folder)?)),
        Err(FolderFault::Memory) => Err(HostEnd::Memory),
    }
}

/// Whether the steward alone reports.
pub fn is_authority(results: Results) -> bool
    ensures { result ≡ is_authority results }
{
    match results {
        Results::First => false,
        Results::Authority => true,
    }
}

/// What is read of the world's file.
#[derive(Drop)]
pub struct Prepared {
    pub file: WorldFile,
    pub bytes: Vec<u8>,
}

/// The kept world of a folder.
#[tactic(auto, using(crate::proofs::Top2::unopened_why))]
pub fn keeper_of<F: Folder + Drop>(
    alloc: Global,
    options: &Options<'_>,
    folder: F,
    prepared: Prepared,
) -> Result<Keeper<F>, HostEnd>
    requires good { IsGoodWorldFile prepared.file }
    requires rest { F.is_honest folder → IsAtRest (F.disk folder) }
    ensures opened { IfOk result (IsOpened F.disk F.is_honest (F.disk folder) prepared.bytes.items (start_in prepared.file)) }
    ensures why { IfErr result (WhyUnopened F.disk F.is_honest F.faults folder prepared.file prepared.bytes.items options.now.folder.now) }
{
    let Prepared { file, bytes } = prepared;
    let stewards = Stewards {
        steward: Some(STEWARD_NUMBER),
        authority: is_authority(file.results),
    };
    let opening = Opening {
        opened: Opened::living(file.world, file.bound, file.reach, file.rights),
        stewards,
        world: &bytes,
        spare: SPARE,
    };
    match Keeper::open(alloc, folder, opening) {
        Ok(keeper) => Ok(keeper),
        Err((fault, _)) => Err(unopened(alloc, options.folder, &fault)?),
    }
}

/// The keys of a file, where there is one.
pub fn keys_of<L: Files, E: Sink>(
    alloc: Global,
    options: &Options<'_>,
    files: &mut L,
    err: &mut E,
) -> Result<Option<Keys>, HostEnd>
    ensures keys { IfOk result (AreKeysFor (L.contents files.old) (option_copied options.now.keys)) }
    ensures same { (n : List ℕ) → L.contents files.new n ≡ L.contents files.old n }
    ensures why { IfErr result (WhyNoKeys (L.contents files.old) (option_copied options.now.keys)) }
    ensures quiet { (IsErr result ⊎ IsLocal options.now.at.now) → err.new ≡ err.old }
    ensures named { option_copied options.now.keys ≢ None → err.new ≡ err.old }
    ensures open { option_copied options.now.keys ≡ None → ¬ IsLocal options.now.at.now
        → GrewOrRose (E.taken err.old) (E.taken err.new) (E.faults err.old) (E.faults err.new) open_line }
{
    let Some(name) = options.keys else {
        if !is_local(options.at) {
            tell_open(err);
        }
        return Ok(None);
    };
    match Keys::open(alloc, files, name) {
        Ok(keys) => Ok(Some(keys)),
        Err(KeysFault::Line(line)) => Err(HostEnd::Keys(owned(alloc, name)?, line)),
        Err(KeysFault::File) => Err(HostEnd::File(owned(alloc, name)?)),
        Err(KeysFault::Memory) => Err(HostEnd::Memory),
    }
}

fn owned_of(alloc: Global, name: Option<&str>) -> Result<Option<String>, AllocError>
    ensures { IfOk result (λ owned. option_map string_bytes owned ≡ option_copied name.entry) }
{
    match name {
        Some(name) => Ok(Some(owned(alloc, name)?)),
        None => Ok(None),
    }
}

fn origins_of(alloc: Global, options: &Options<'_>) -> Result<Vec<String>, AllocError>
    ensures { IfOk result (λ origins. map string_bytes origins.items ≡ (asked_by options.now).origins) }
{
    let mut origins = Vec::new(alloc);
    for origin in &options.origins {
        origins.push(owned(alloc, *origin)?)?;
    }
    Ok(origins)
}

/// Reads the world's file. Where the steward alone reports there has to be one.
#[tactic(auto, using(crate::proofs::Top2::unread_before, crate::proofs::Top2::faulty_before, crate::proofs::Top2::lacks_before))]
pub fn prepared_of<L: Files>(
    alloc: Global,
    options: &Options<'_>,
    files: &mut L,
) -> Result<Prepared, HostEnd>
    ensures good { IfOk result (λ prepared. IsGoodWorldFile prepared.file) }
    ensures read { IfOk result (λ prepared. IsPrepared (L.contents files.old options.now.world.now) (asked_by options.now) prepared.file prepared.bytes.items) }
    ensures why { IfErr result (WhyBefore (L.contents files.old) (Rose (L.faults files.old) (L.faults files.new)) (asked_by options.now)) }
    ensures same { (n : List ℕ) → L.contents files.new n ≡ L.contents files.old n }
{
    let bytes = world_bytes(alloc, files, options.world)?;
    let file = world_of(alloc, &bytes)?;
    if is_authority(file.results) && !options.has_steward {
        return Err(HostEnd::Words);
    }
    Ok(Prepared { file, bytes })
}

fn steward_of(alloc: Global, is_wanted: bool, shape: Shape) -> Result<Option<Steward>, AllocError>
    ensures is { IfOk result (λ steward. is_some steward ≡ is_wanted) }
    ensures none { IfOk result (λ steward. session_of steward ≡ None) }
    ensures told { IfOk result (λ steward. (v : WorldView) → ForSome steward (IsUpToDate v)) }
{
    if is_wanted {
        Ok(Some(Steward::new(alloc, shape)?))
    } else {
        Ok(None)
    }
}

/// What a server has beside the world.
#[derive(Drop)]
pub struct Staff {
    pub keys: Option<Keys>,
    pub steward: Option<Steward>,
    pub site: Option<String>,
    pub origins: Vec<String>,
}

/// The steward is in no session, and was told nothing.
pub fn staff_of(
    alloc: Global,
    options: &Options<'_>,
    shape: Shape,
    keys: Option<Keys>,
) -> Result<Staff, AllocError>
    requires keys { is_some keys ≡ is_some (option_copied options.now.keys) }
    ensures keys { IfOk result (λ staff. staff.keys ≡ keys) }
    ensures staff { IfOk result (IsStaffFor (asked_by options.now)) }
{
    let site = owned_of(alloc, options.site)?;
    let origins = origins_of(alloc, options)?;
    let steward = steward_of(alloc, options.has_steward, shape)?;
    Ok(Staff {
        keys,
        steward,
        site,
        origins,
    })
}

/// How the server is to behave.
pub fn manners_of(options: &Options<'_>, authority: bool) -> Policy
    ensures { result ≡ manners_for (asked_by options.now) authority }
{
    Policy {
        idle: options.idle,
        report_within: options.report_within,
        authority,
        stops: options.stops,
    }
}

/// What answers, before the steward joins.
fn office_of<F: Folder + Drop>(
    alloc: Global,
    keeper: Keeper<F>,
    staff: Staff,
    random: RandomState,
    policy: Policy,
) -> Office<F>
    requires limits { AreWithinLimits keeper.world.rules }
    requires none { session_of staff.steward ≡ None }
    requires trusted { IsTrusted keeper staff.steward }
    ensures keeper { result.keeper ≡ keeper }
    ensures keys { result.keys ≡ staff.keys }
    ensures steward { result.steward ≡ staff.steward }
    ensures policy { result.policy ≡ policy }
    ensures site { result.site ≡ staff.site }
    ensures origins { result.origins ≡ staff.origins }
{
    let Staff {
        keys,
        steward,
        site,
        origins,
    } = staff;
    Office {
        alloc,
        keeper,
        policy,
        counts: Counts::default(),
        steward,
        keys,
        ages: Ages::new(alloc),
        time: 0,
        random,
        site,
        origins,
    }
}

/// The server, with nobody there.
pub fn host_of<F: Folder + Drop>(
    alloc: Global,
    keeper: Keeper<F>,
    staff: Staff,
    random: RandomState,
    policy: Policy,
) -> Host<F>
    requires limits { AreWithinLimits keeper.world.rules }
    requires none { session_of staff.steward ≡ None }
    requires trusted { IsTrusted keeper staff.steward }
    ensures keeper { result.office.keeper ≡ keeper }
    ensures keys { result.office.keys ≡ staff.keys }
    ensures steward { result.office.steward ≡ staff.steward }
    ensures policy { result.office.policy ≡ policy }
    ensures site { result.office.site ≡ staff.site }
    ensures origins { result.office.origins ≡ staff.origins }
    ensures nobody { result.room.guests ≡ [] }
{
    let entries = keeper.entries();
    let office = office_of(alloc, keeper, staff, random, policy);
    let room = Room::new(alloc, entries);
    Host {
        alloc,
        office,
        room,
    }
}
