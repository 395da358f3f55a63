//! The positions that a value comes from, by a walk down the accepted actions with the set of the objects that are wanted.
ghost use Rattle.std.specs.Prelude.{◌≡◌, ℕ, ◌+◌, ◌-◌, ◌^◌, ◌<◌, ◌≤◌, ◌||◌, ◌++◌, nat_eq, length, reverse, IfOk, OnOk};
ghost use Rattle.std.specs.List.{list_any};
ghost use Rattle.sv_world.specs.Control.{is_in};
ghost use Rattle.sv_world.specs.Sets.{at_mask, numbers_of};
ghost use Rattle.sv_journal.specs.History.{accepted, actions_of};
ghost use Rattle.sv_why.specs.Reasons.{reasons_of};
ghost use Rattle.sv_why.specs.Walks.{is_wanted, walk};

use std::alloc::{AllocError, Global};
use sv_journal::Journal;
use sv_lists::List;
use sv_world::{ObjectId, is_in_mask};

/// How many numbers there are for objects.
const OBJECT_NUMBERS: usize = 65_536;

fn is_wanted(wanted: &List<bool>, object: ObjectId) -> bool
    ensures { result ≡ is_wanted wanted.now object.0 }
{
    match wanted.as_slice().get(usize::from(object.0)) {
        Some(is) => *is,
        None => false,
    }
}

fn want(wanted: &mut List<bool>, object: ObjectId)
    requires { length wanted.old ≡ 65536 }
    ensures count { length wanted.new ≡ 65536 }
    ensures marked { (x : ℕ) → is_wanted wanted.new x ≡ (nat_eq x object.0 || is_wanted wanted.old x) }
{
    wanted.set(usize::from(object.0), true);
}

fn want_all(wanted: &mut List<bool>, objects: &[ObjectId])
    requires { length wanted.old ≡ 65536 }
    ensures count { length wanted.new ≡ 65536 }
    ensures marked { (x : ℕ) → is_wanted wanted.new x ≡ (is_in x (numbers_of objects.now) || is_wanted wanted.old x) }
{
    let [object, rest @ ..] = objects else {
        return;
    };
    want(wanted, *object);
    want_all(wanted, rest);
}

/// Whether some of these reads, whose slots begin with `slot`, is in the mask and wanted.
fn writes_wanted(wanted: &List<bool>, mask: u16, slot: usize, reads: &[ObjectId]) -> bool
    requires { slot + length reads.now < 2 ^ 64 }
    ensures { result ≡ list_any (is_wanted wanted.now) (at_mask mask slot (numbers_of reads.now)) }
{
    let [object, rest @ ..] = reads else {
        return false;
    };
    if is_in_mask(mask, slot) && is_wanted(wanted, *object) {
        return true;
    }
    writes_wanted(wanted, mask, slot + 1, rest)
}

/// Looks at a position: where its action writes a wanted object it is found, and what the action reads is wanted too.
fn look_at(
    journal: &Journal,
    at: u32,
    wanted: &mut List<bool>,
    found: &mut Vec<u32>,
) -> Result<(), AllocError>
    requires first { 1 ≤ at }
    requires last { at ≤ length (accepted (reverse journal.now.entries)) }
    requires all { length wanted.old ≡ 65536 }
    ensures count { length wanted.new ≡ 65536 }
    ensures walked { OnOk result (walk (actions_of (reverse journal.now.entries)) (at - 1) (is_wanted wanted.new) ++ reverse found.new.items
        ≡ walk (actions_of (reverse journal.now.entries)) at (is_wanted wanted.old) ++ reverse found.old.items) }
{
    let action = journal.accepted(at);
    if writes_wanted(wanted, action.mask, 0, action.reads.as_slice()) {
        want_all(wanted, action.reads.as_slice());
        found.push(at)?;
    }
    Ok(())
}

/// The flags of all objects, of which one is wanted.
fn flags_for(alloc: Global, object: ObjectId) -> Result<List<bool>, AllocError>
    ensures count { IfOk result (λ flags. length flags ≡ 65536) }
    ensures marked { IfOk result (λ flags. (x : ℕ) → is_wanted flags x ≡ nat_eq x object.0) }
{
    let mut flags = List::from_vec(vec![in alloc; false; OBJECT_NUMBERS]?);
    want(&mut flags, object);
    Ok(flags)
}

/// The positions that an object's value at a position comes from, ascending.
///
/// Since an action reads what it writes, the set of wanted objects only grows, and each position is looked at once.
pub(crate) fn reasons_of(
    alloc: Global,
    journal: &Journal,
    object: ObjectId,
    pos: u32,
) -> Result<List<u32>, AllocError>
    requires { pos ≤ length (accepted (reverse journal.now.entries)) }
    ensures { IfOk result (λ positions. positions ≡ reasons_of (actions_of (reverse journal.now.entries)) object.0 pos) }
{
    let mut wanted = flags_for(alloc, object)?;
    let mut found = Vec::new(alloc);
    let mut at = pos;
    while at > 0 {
        look_at(journal, at, &mut wanted, &mut found)?;
        at -= 1;
    }
    found.reverse();
    Ok(List::from_vec(found))
}
