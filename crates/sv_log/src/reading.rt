//! What a folder has of a log: read and judged, and not changed.
ghost use Rattle.std.specs.Prelude.{◌≡◌, ◌≢◌, ◌⊎◌, ℕ, ◌+◌, ◌^◌, ◌<◌, ◌++◌, ◌∷◌, [], List, Some, None, Contains, map, IfOk, IfErr, OnOk, OnErr, MatchOption, MatchBool, true, false, string_bytes};
ghost use Rattle.sv_log.specs.Pictures.{seen};
ghost use Rattle.sv_log.specs.Reads.{Lists};
ghost use Rattle.sv_log.specs.Names.{IsNumber, IsWrongName, Tells, file_name, segment_name, world_name};
ghost use Rattle.sv_log.specs.declared.names.FileKind.TheVariants as file;
ghost use Rattle.sv_log.specs.Chains.{IsNewest, IsWellNamed, state_at};
ghost use Rattle.sv_log.specs.Readings.{Reads, HasWorld, HasSome, IsFirstNumber, IsOther, Looks, IsNothing};
ghost use Rattle.sv_log.specs.Refusals.{RefusalCause, IsCauseOf, IsWhy, HasNoLog};
ghost use Rattle.sv_log.specs.declared.reading.Cause.TheVariants as causes;

use super::folder::Folder;
use super::names::{FileKind, NameKind, WORLD, kind_of, segment_name, state_name};
use super::starting::read_file;
use super::states::is_whole;
use super::walking::read_segments;
use std::alloc::{AllocError, Global};
use sv_bytes::FileFault;

/// Why a log is refused.
#[derive(Clone, Copy, Debug, PartialEq, Eq)]
pub enum Cause {
    /// The disk failed.
    Failed,
    Memory,
    /// The file is missing.
    Missing,
    /// The segment has no line, though another follows.
    Empty,
    /// The name is like that of a segment or a state, and is none, or the lines before do not end at its number.
    Misnamed,
    /// Something that is no line stands behind the text, and another segment follows.
    Behind,
    /// No state has a right sum.
    Sum,
    /// The world is another one.
    World,
}

/// A refusal. `line` counts from 1, and is 0 where the whole file is at fault.
#[derive(Drop)]
pub struct LogRefusal {
    pub file: String,
    pub line: u64,
    pub cause: Cause,
}

/// What was read. The text is that behind the newest whole state.
#[derive(Drop)]
pub struct Reading {
    pub has_world: bool,
    /// The number of the line after which the newest whole state was taken, or 0.
    pub state: u64,
    /// The bytes of this state.
    pub state_bytes: Vec<u8>,
    /// The numbers of the segments behind it, but for the last one.
    pub closed: Vec<u64>,
    /// The number of the last segment.
    pub last: Option<u64>,
    /// The text of these segments.
    pub text: Vec<u8>,
    /// The number of the next line.
    pub next: u64,
}

/// The newest whole state.
#[derive(Drop)]
struct Newest {
    /// The number of its line, or 0.
    state: u64,
    bytes: Vec<u8>,
    /// The number of the last state that was looked at, or 0.
    seen: u64,
}

/// Reads the log of a folder, and changes nothing. A folder without any file has one, which is empty.
///
/// A folder that holds a log of this world is not refused, unless the disk fails or memory is wanting. What stands in the lines is judged by
/// the caller.
#[tactic(auto, using(crate::proofs::Walked::fault_count, crate::proofs::Walked::calm_count, crate::proofs::Walked::fault_why))]
pub fn read_log<F: Folder>(
    alloc: Global,
    folder: &mut F,
    world: &[u8],
) -> Result<Reading, LogRefusal>
    ensures reads { F.is_honest folder.new → IfOk result (λ r. Reads world.now (seen (F.disk folder.old)) r) }
    ensures refused { F.is_honest folder.new → IfErr result (λ r. IsWhy (HasNoLog world.now (seen (F.disk folder.old))) r.cause) }
    ensures same { F.disk folder.new ≡ F.disk folder.old }
    ensures honest { F.is_honest folder.new → F.is_honest folder.old }
    ensures cause { RefusalCause (F.faults folder.old) (F.faults folder.new) result }
{
    let names = match folder.names(alloc) {
        Ok(names) => names,
        Err(fault) => return Err(refuse_fault(alloc, "", fault)),
    };
    if let Some(wrong) = first_wrong(&names) {
        return Err(refuse(alloc, wrong, 0, Cause::Misnamed));
    }
    read_named(alloc, folder, &names, world)
}

// Reads the log of a folder that has these files.
fn read_named<F: Folder>(
    alloc: Global,
    folder: &mut F,
    names: &[String],
    world: &[u8],
) -> Result<Reading, LogRefusal>
    requires listed { F.is_honest folder.old → Lists (seen (F.disk folder.old)) (map string_bytes names.now) }
    requires named { F.is_honest folder.old → IsWellNamed (seen (F.disk folder.old)) }
    ensures reads { F.is_honest folder.new → IfOk result (λ r. Reads world.now (seen (F.disk folder.old)) r) }
    ensures refused { F.is_honest folder.new → IfErr result (λ r. IsWhy (HasNoLog world.now (seen (F.disk folder.old))) r.cause) }
    ensures same { F.disk folder.new ≡ F.disk folder.old }
    ensures honest { F.is_honest folder.new → F.is_honest folder.old }
    ensures cause { RefusalCause (F.faults folder.old) (F.faults folder.new) result }
{
    let has_world = check_world(alloc, folder, names, world)?;
    let newest = newest_state(alloc, folder, names)?;
    if has_nothing(names, newest.state) {
        return Ok(nothing_read(alloc, has_world));
    }
    if !has_world {
        return Err(refuse(alloc, WORLD, 0, Cause::Missing));
    }
    let walk = read_segments(alloc, folder, names, newest.state + 1)?;
    Ok(Reading {
        has_world,
        state: newest.state,
        state_bytes: newest.bytes,
        closed: walk.closed,
        last: Some(walk.number),
        text: walk.text,
        next: walk.next,
    })
}

// Whether there is neither a state nor a segment.
fn has_nothing(names: &[String], state: u64) -> bool
    ensures { MatchBool result ((state ≡ 0) × IsFirstNumber file.Segment (map string_bytes names.now) 1 None) (HasSome (map string_bytes names.now) state) }
{
    if state > 0 {
        return false;
    }
    match first_from(names, FileKind::Segment, 1) {
        None => true,
        Some(_) => false,
    }
}

fn nothing_read(alloc: Global, has_world: bool) -> Reading
    ensures { IsNothing result has_world }
{
    Reading {
        has_world,
        state: 0,
        state_bytes: Vec::new(alloc),
        closed: Vec::new(alloc),
        last: None,
        text: Vec::new(alloc),
        next: 1,
    }
}

// Whether the folder has this world. It has no other one.
#[tactic(auto, using(crate::proofs::Walked::fault_count, crate::proofs::Walked::calm_count, crate::proofs::Walked::fault_why))]
fn check_world<F: Folder>(
    alloc: Global,
    folder: &mut F,
    names: &[String],
    world: &[u8],
) -> Result<bool, LogRefusal>
    requires listed { F.is_honest folder.old → Lists (seen (F.disk folder.old)) (map string_bytes names.now) }
    ensures world { F.is_honest folder.new → IfOk result (λ r. HasWorld (seen (F.disk folder.old) world_name) world.now r) }
    ensures refused { F.is_honest folder.new → IfErr result (λ r. IsWhy (HasNoLog world.now (seen (F.disk folder.old))) r.cause) }
    ensures same { F.disk folder.new ≡ F.disk folder.old }
    ensures honest { F.is_honest folder.new → F.is_honest folder.old }
    ensures cause { RefusalCause (F.faults folder.old) (F.faults folder.new) result }
{
    if !has_name(names, WORLD) {
        return Ok(false);
    }
    let bytes = match read_file(alloc, folder, WORLD) {
        Ok(bytes) => bytes,
        Err(fault) => return Err(refuse_fault(alloc, WORLD, fault)),
    };
    if bytes.as_slice() != world {
        return Err(refuse(alloc, WORLD, 0, Cause::World));
    }
    Ok(true)
}

fn has_name(names: &[String], wanted: &str) -> bool
    ensures { result ≡ false → Contains (map string_bytes names.now) wanted.now → ⊥ }
{
    for i in 0..names.len() {
        if names[i].as_str() == wanted {
            return true;
        }
    }
    false
}

// Reads the newest state whose sum is right.
#[tactic(auto, using(crate::proofs::Walked::fault_count, crate::proofs::Walked::calm_count, crate::proofs::Walked::fault_why))]
fn newest_state<F: Folder>(
    alloc: Global,
    folder: &mut F,
    names: &[String],
) -> Result<Newest, LogRefusal>
    requires listed { F.is_honest folder.old → Lists (seen (F.disk folder.old)) (map string_bytes names.now) }
    ensures newest { F.is_honest folder.new → IfOk result (λ n. IsNewest (seen (F.disk folder.old)) n.state) }
    ensures refused { F.is_honest folder.new → IfErr result (λ r. (world : List ℕ) → IsWhy (HasNoLog world (seen (F.disk folder.old))) r.cause) }
    ensures bytes { F.is_honest folder.new → IfOk result (λ n. n.bytes.items ≡ state_at (seen (F.disk folder.old)) n.state) }
    ensures small { IfOk result (λ n. n.state + 1 < 2 ^ 64) }
    ensures same { F.disk folder.new ≡ F.disk folder.old }
    ensures honest { F.is_honest folder.new → F.is_honest folder.old }
    ensures cause { RefusalCause (F.faults folder.old) (F.faults folder.new) result }
{
    let mut newest = Newest {
        state: 0,
        bytes: Vec::new(alloc),
        seen: 0,
    };
    for _ in 0..u64::MAX {
        let Some(number) = first_from(names, FileKind::State, newest.seen + 1) else {
            return whole_or_none(alloc, newest);
        };
        look_at(alloc, folder, &mut newest, number)?;
    }
    Err(refuse(alloc, "", 0, Cause::Memory))
}

// There is a whole state, or no state.
fn whole_or_none(alloc: Global, newest: Newest) -> Result<Newest, LogRefusal>
    ensures ok { IfOk result (λ n. (n ≡ newest) × (newest.state ≡ 0 → newest.seen ≡ 0)) }
    ensures err { IfErr result (λ r. (newest.state ≡ 0) × (0 < newest.seen)) }
    ensures cause { IfErr result (λ r. r.cause ≢ causes.Failed) }
{
    if newest.state == 0 && newest.seen > 0 {
        return Err(refuse_file(alloc, FileKind::State, newest.seen, 0, Cause::Sum));
    }
    Ok(newest)
}

// Reads one state more.
#[tactic(auto, using(crate::proofs::Walked::fault_count, crate::proofs::Walked::calm_count, crate::proofs::Walked::fault_why))]
fn look_at<F: Folder>(
    alloc: Global,
    folder: &mut F,
    newest: &mut Newest,
    number: u64,
) -> Result<(), LogRefusal>
    requires number { 0 < number }
    ensures looks { F.is_honest folder.new → OnOk result (Looks (seen (F.disk folder.old)) newest.old.state newest.new.state number) }
    ensures bytes { F.is_honest folder.new → OnOk result (newest.old.bytes.items ≡ state_at (seen (F.disk folder.old)) newest.old.state
        → newest.new.bytes.items ≡ state_at (seen (F.disk folder.old)) newest.new.state) }
    ensures seen { OnOk result (newest.new.seen ≡ number) }
    ensures state { OnOk result ((newest.new.state ≡ number) ⊎ (newest.new.state ≡ newest.old.state)) }
    ensures fault { IfErr result (λ r. IsWhy ⊥ r.cause) }
    ensures same { F.disk folder.new ≡ F.disk folder.old }
    ensures honest { F.is_honest folder.new → F.is_honest folder.old }
    ensures cause { RefusalCause (F.faults folder.old) (F.faults folder.new) result }
{
    let Ok(name) = state_name(alloc, number) else {
        return Err(refuse(alloc, "", 0, Cause::Memory));
    };
    let bytes = match read_file(alloc, folder, name.as_str()) {
        Ok(bytes) => bytes,
        Err(fault) => return Err(refuse_fault(alloc, name.as_str(), fault)),
    };
    let Ok(whole) = is_whole(alloc, &bytes) else {
        return Err(refuse(alloc, "", 0, Cause::Memory));
    };
    newest.seen = number;
    if whole {
        newest.state = number;
        newest.bytes = bytes;
    }
    Ok(())
}

/// A refusal of a file.
pub(crate) fn refuse(alloc: Global, file: &str, line: u64, cause: Cause) -> LogRefusal
    ensures { result.cause ≡ cause }
{
    let file = match String::from_str(alloc, file) {
        Ok(file) => file,
        Err(_) => String::new(alloc),
    };
    LogRefusal { file, line, cause }
}

pub(crate) fn refuse_fault(alloc: Global, file: &str, fault: FileFault) -> LogRefusal
    ensures { IsCauseOf fault result.cause }
{
    match fault {
        FileFault::Failed => refuse(alloc, file, 0, Cause::Failed),
        FileFault::Memory => refuse(alloc, file, 0, Cause::Memory),
    }
}

// The refusal of the file of this kind and number.
pub(crate) fn refuse_file(
    alloc: Global,
    kind: FileKind,
    number: u64,
    line: u64,
    cause: Cause,
) -> LogRefusal
    requires { cause ≢ causes.Failed }
    ensures { result.cause ≢ causes.Failed }
{
    match file_name(alloc, kind, number) {
        Ok(name) => refuse(alloc, name.as_str(), line, cause),
        Err(_) => refuse(alloc, "", 0, Cause::Memory),
    }
}

fn file_name(alloc: Global, kind: FileKind, number: u64) -> Result<String, AllocError> {
    match kind {
        FileKind::Segment => segment_name(alloc, number),
        FileKind::State => state_name(alloc, number),
    }
}

// The first name that is like a segment's or a state's, and is none.
fn first_wrong(names: &[String]) -> Option<&str>
    ensures { MatchOption result ((name : List ℕ) → Contains (map string_bytes names.now) name → IsWrongName name → ⊥)
        (λ wrong. IsWrongName wrong.now × Contains (map string_bytes names.now) wrong.now) }
{
    for i in 0..names.len() {
        let name = names[i].as_str();
        if is_wrong(kind_of(name)) {
            return Some(name);
        }
    }
    None
}

fn is_wrong(kind: NameKind) -> bool
    ensures { (name : List ℕ) → Tells kind name → MatchBool result (IsWrongName name) (IsWrongName name → ⊥) }
{
    match kind {
        NameKind::Segment(_) => false,
        NameKind::State(_) => false,
        NameKind::Wrong => true,
        NameKind::Other => false,
    }
}

/// The first number from `least` on of such a file.
pub(crate) fn first_from(names: &[String], wanted: FileKind, least: u64) -> Option<u64>
    ensures { IsFirstNumber wanted (map string_bytes names.now) least result }
{
    let mut best = None;
    for i in 0..names.len() {
        let number = number_of(wanted, kind_of(names[i].as_str()));
        best = nearer(best, wanted, least, number);
    }
    best
}

// The number that a name has, if it is the name of such a file.
fn number_of(wanted: FileKind, kind: NameKind) -> Option<u64>
    ensures { (name : List ℕ) → Tells kind name → MatchOption result (IsOther wanted name) (λ n. IsNumber n × (name ≡ file_name wanted n)) }
{
    match wanted {
        FileKind::Segment => segment_number(kind),
        FileKind::State => state_number(kind),
    }
}

fn segment_number(kind: NameKind) -> Option<u64>
    ensures { (name : List ℕ) → Tells kind name
        → MatchOption result (IsOther file.Segment name) (λ n. IsNumber n × (name ≡ file_name file.Segment n)) }
{
    match kind {
        NameKind::Segment(number) => Some(number),
        NameKind::State(_) => None,
        NameKind::Wrong => None,
        NameKind::Other => None,
    }
}

fn state_number(kind: NameKind) -> Option<u64>
    ensures { (name : List ℕ) → Tells kind name → MatchOption result (IsOther file.State name) (λ n. IsNumber n × (name ≡ file_name file.State n)) }
{
    match kind {
        NameKind::Segment(_) => None,
        NameKind::State(number) => Some(number),
        NameKind::Wrong => None,
        NameKind::Other => None,
    }
}

// The first number from `least` on, where one name more has this number, and the first one was `best` without it.
fn nearer(best: Option<u64>, wanted: FileKind, least: u64, number: Option<u64>) -> Option<u64>
    ensures { (names : List (List ℕ)) → (name : List ℕ) → IsFirstNumber wanted names least best
        → MatchOption number (IsOther wanted name) (λ n. IsNumber n × (name ≡ file_name wanted n))
        → IsFirstNumber wanted (names ++ name ∷ []) least result }
{
    let Some(number) = number else {
        return best;
    };
    if number < least {
        return best;
    }
    let Some(other) = best else {
        return Some(number);
    };
    if other <= number {
        return Some(other);
    }
    Some(number)
}

/// Whether there is a segment of this number.
pub(crate) fn is_listed(names: &[String], number: u64) -> bool
    ensures { MatchBool result (IsNumber number × Contains (map string_bytes names.now) (segment_name number))
        (IsNumber number → Contains (map string_bytes names.now) (segment_name number) → ⊥) }
{
    match first_from(names, FileKind::Segment, number) {
        Some(found) => found == number,
        None => false,
    }
}
