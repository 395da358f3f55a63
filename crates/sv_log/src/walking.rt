//! Reading the segments of a log, one after the other.
ghost use Rattle.std.specs.Prelude.{◌≡◌, ◌≢◌, ℕ, ◌+◌, ◌^◌, ◌<◌, ◌++◌, ◌∷◌, List, [], Contains, map, IfOk, IfErr, OnOk, IfSome, MatchOption, string_bytes};
ghost use Rattle.sv_log.specs.Pictures.{seen};
ghost use Rattle.sv_log.specs.Texts.{whole};
ghost use Rattle.sv_log.specs.Reads.{Lists};
ghost use Rattle.sv_log.specs.Chains.{lines};
ghost use Rattle.sv_log.specs.Names.{segment_name, IsNumber};
ghost use Rattle.sv_log.specs.Walks.{IsOnTheWay, HasArrived, StepsTo, LeadsTo};
ghost use Rattle.sv_log.specs.Refusals.{RefusalCause, IsWhy, HasNoChain};
ghost use Rattle.sv_log.specs.declared.reading.Cause.TheVariants as causes;

use super::folder::Folder;
use super::log::line_count;
use super::mending::text_length;
use super::names::{FileKind, segment_name};
use super::reading::{Cause, LogRefusal, first_from, is_listed, refuse, refuse_fault, refuse_file};
use super::starting::read_file;
use std::alloc::{AllocError, Global};
use sv_bytes::FileFault;

/// How far the segments were read.
#[derive(Drop)]
pub struct SegmentWalk {
    /// The numbers of the segments that were read, but for the last one.
    pub closed: Vec<u64>,
    /// Their text, and that of the last one once it was read.
    pub text: Vec<u8>,
    /// The number of the next segment, or of the last one once it was read.
    pub number: u64,
    /// The number of the line behind the last segment, once it was read.
    pub next: u64,
}

/// Reads all segments from this number on. The first one has to be there.
#[tactic(auto, using(crate::proofs::Walked::calm_count))]
pub fn read_segments<F: Folder>(
    alloc: Global,
    folder: &mut F,
    names: &[String],
    first: u64,
) -> Result<SegmentWalk, LogRefusal>
    requires listed { F.is_honest folder.old → Lists (seen (F.disk folder.old)) (map string_bytes names.now) }
    ensures arrived { F.is_honest folder.new → IfOk result (λ w. HasArrived (seen (F.disk folder.old)) first w) }
    ensures refused { F.is_honest folder.new → IfErr result (λ r. IsWhy (HasNoChain (seen (F.disk folder.old)) first) r.cause) }
    ensures same { F.disk folder.new ≡ F.disk folder.old }
    ensures honest { F.is_honest folder.new → F.is_honest folder.old }
    ensures cause { RefusalCause (F.faults folder.old) (F.faults folder.new) result }
{
    if !is_listed(names, first) {
        return Err(refuse_file(alloc, FileKind::Segment, first, 0, Cause::Missing));
    }
    walk_from(alloc, folder, names, first)
}

// Reads all segments from one on that is there.
#[tactic(auto, using(crate::proofs::Walked::calm_count))]
fn walk_from<F: Folder>(
    alloc: Global,
    folder: &mut F,
    names: &[String],
    first: u64,
) -> Result<SegmentWalk, LogRefusal>
    requires listed { F.is_honest folder.old → Lists (seen (F.disk folder.old)) (map string_bytes names.now) }
    requires there { IsNumber first × Contains (map string_bytes names.now) (segment_name first) }
    ensures arrived { F.is_honest folder.new → IfOk result (λ w. HasArrived (seen (F.disk folder.old)) first w) }
    ensures refused { F.is_honest folder.new → IfErr result (λ r. IsWhy (HasNoChain (seen (F.disk folder.old)) first) r.cause) }
    ensures same { F.disk folder.new ≡ F.disk folder.old }
    ensures honest { F.is_honest folder.new → F.is_honest folder.old }
    ensures cause { RefusalCause (F.faults folder.old) (F.faults folder.new) result }
{
    let mut walk = SegmentWalk {
        closed: Vec::new(alloc),
        text: Vec::new(alloc),
        number: first,
        next: first,
    };
    for _ in 0..u64::MAX {
        if step(alloc, folder, names, &mut walk)? {
            return Ok(walk);
        }
    }
    Err(refuse(alloc, "", 0, Cause::Memory))
}

// Reads one segment, and answers whether it is the last one.
#[tactic(auto, using(crate::proofs::Walked::fault_count, crate::proofs::Walked::calm_count, crate::proofs::Walked::fault_why))]
fn step<F: Folder>(
    alloc: Global,
    folder: &mut F,
    names: &[String],
    walk: &mut SegmentWalk,
) -> Result<bool, LogRefusal>
    requires listed { F.is_honest folder.old → Lists (seen (F.disk folder.old)) (map string_bytes names.now) }
    requires small { walk.old.number + 1 < 2 ^ 64 }
    ensures way { F.is_honest folder.new → (first : ℕ) → IsOnTheWay (seen (F.disk folder.old)) first walk.old
        → IfOk result (λ done. StepsTo (seen (F.disk folder.old)) first walk.new done) }
    ensures refused { F.is_honest folder.new → (first : ℕ) → IsOnTheWay (seen (F.disk folder.old)) first walk.old
        → IfErr result (λ r. IsWhy (HasNoChain (seen (F.disk folder.old)) first) r.cause) }
    ensures small { IfOk result (λ _. walk.new.number + 1 < 2 ^ 64) }
    ensures same { F.disk folder.new ≡ F.disk folder.old }
    ensures honest { F.is_honest folder.new → F.is_honest folder.old }
    ensures cause { RefusalCause (F.faults folder.old) (F.faults folder.new) result }
{
    let Ok(name) = segment_name(alloc, walk.number) else {
        return Err(refuse(alloc, "", 0, Cause::Memory));
    };
    let bytes = match read_file(alloc, folder, name.as_str()) {
        Ok(bytes) => bytes,
        Err(fault) => return Err(refuse_fault(alloc, name.as_str(), fault)),
    };
    match first_from(names, FileKind::Segment, walk.number + 1) {
        None => {
            if add_last(walk, &bytes).is_err() {
                return Err(refuse(alloc, "", 0, Cause::Memory));
            }
            Ok(true)
        }
        Some(following) => {
            if let Some(refusal) = closed_fault(alloc, &bytes, walk.number, following) {
                return Err(refusal);
            }
            if add_closed(walk, &bytes, following).is_err() {
                return Err(refuse(alloc, "", 0, Cause::Memory));
            }
            Ok(false)
        }
    }
}

// Adds the text of the last segment.
fn add_last(walk: &mut SegmentWalk, bytes: &[u8]) -> Result<(), FileFault>
    ensures closed { OnOk result (walk.new.closed ≡ walk.old.closed) }
    ensures number { OnOk result (walk.new.number ≡ walk.old.number) }
    ensures text { OnOk result (walk.new.text.items ≡ walk.old.text.items ++ whole bytes.now) }
    ensures next { OnOk result (walk.new.next ≡ walk.old.number + lines (whole bytes.now)) }
{
    let text = &bytes[..text_length(bytes)];
    // No log has as many lines as that.
    let Some(next) = walk.number.checked_add(line_count(text)) else {
        return Err(FileFault::Memory);
    };
    if walk.text.extend_from_slice(text).is_err() {
        return Err(FileFault::Memory);
    }
    walk.next = next;
    Ok(())
}

// Adds a segment behind which another one follows.
fn add_closed(walk: &mut SegmentWalk, bytes: &[u8], following: u64) -> Result<(), AllocError>
    ensures closed { OnOk result (walk.new.closed.items ≡ walk.old.closed.items ++ walk.old.number ∷ []) }
    ensures number { OnOk result (walk.new.number ≡ following) }
    ensures text { OnOk result (walk.new.text.items ≡ walk.old.text.items ++ bytes.now) }
{
    walk.text.extend_from_slice(bytes)?;
    walk.closed.push(walk.number)?;
    walk.number = following;
    walk.next = following;
    Ok(())
}

// What is wrong with a segment behind which another one follows.
fn closed_fault(alloc: Global, bytes: &[u8], number: u64, following: u64) -> Option<LogRefusal>
    ensures cause { IfSome result (λ r. r.cause ≢ causes.Failed) }
    ensures leads { MatchOption result (LeadsTo number bytes.now following) (λ r. LeadsTo number bytes.now following → ⊥) }
{
    let length = text_length(bytes);
    let lines = line_count(&bytes[..length]);
    if length < bytes.len() {
        let line = lines.saturating_add(1);
        return Some(refuse_file(alloc, FileKind::Segment, number, line, Cause::Behind));
    }
    if length == 0 {
        return Some(refuse_file(alloc, FileKind::Segment, number, 0, Cause::Empty));
    }
    let Some(next) = number.checked_add(lines) else {
        return Some(refuse_file(alloc, FileKind::Segment, following, 0, Cause::Misnamed));
    };
    if following < next {
        return Some(refuse_file(alloc, FileKind::Segment, following, 0, Cause::Misnamed));
    }
    if next < following {
        return Some(refuse_file(alloc, FileKind::Segment, next, 0, Cause::Missing));
    }
    None
}
