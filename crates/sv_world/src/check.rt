//! Whether an action is one of a world of some shape, and else why not.
ghost use Rattle.std.specs.Prelude.{◌≡◌, ◌↔◌, ◌&&◌, not, nat_lt, Some, None, MatchResult, OnOk};
ghost use Rattle.std.specs.List.{list_all};
ghost use Rattle.sv_world.specs.declared.action.Action.{Action};
ghost use Rattle.sv_world.specs.declared.world.Shape.{Shape};
ghost use Rattle.sv_world.specs.Sets.{numbers_of};
ghost use Rattle.sv_world.specs.Faults.{is_ascending, has_no_reads, has_too_many_reads, is_not_ascending, reads_no_object, has_bad_mask, has_slots, sets_in_mask, has_attrs, is_too_large, is_too_deep, is_in_plane, has_origin, first_fault_of_action, cause_number, IsGoodAction, may_be_observed};

use crate::fits::{Limits, block_fits};
use crate::names::{NameTest, passes_in_nodes, weight};
use crate::{
    Action, GREATEST_COORDINATE, LEAST_COORDINATE, MOST_DEPTH, MOST_NODES, MOST_READS, NodeCursor,
    ObjectId, Shape,
};

/// Why an action is refused, in the order in which the causes are looked for.
#[derive(Clone, Copy, Debug, Drop, PartialEq, Eq)]
pub enum BadAction {
    NoReads,
    /// More than 16 reads.
    TooManyReads,
    NotAscending,
    NoSuchObject,
    /// The mask has a bit at or above the number of reads.
    BadMask,
    /// The body names a slot that has no read.
    BadSlot,
    /// A statement sets an object outside the mask.
    NotWritable,
    BadAttr,
    /// More than 64 nodes.
    TooLarge,
    /// Nested more than 8 deep.
    TooDeep,
    /// A coordinate of the origin is outside -1,000,000 to 1,000,000.
    BadOrigin,
}

impl BadAction {
    /// The cause's number in the order of the causes, from 1.
    pub fn code(self) -> u8
        ensures { result ≡ cause_number self }
    {
        match self {
            BadAction::NoReads => 1,
            BadAction::TooManyReads => 2,
            BadAction::NotAscending => 3,
            BadAction::NoSuchObject => 4,
            BadAction::BadMask => 5,
            BadAction::BadSlot => 6,
            BadAction::NotWritable => 7,
            BadAction::BadAttr => 8,
            BadAction::TooLarge => 9,
            BadAction::TooDeep => 10,
            BadAction::BadOrigin => 11,
        }
    }
}

/// Whether the numbers of the objects ascend strictly.
pub fn is_ascending(objects: &[ObjectId]) -> bool
    ensures { result ≡ is_ascending (numbers_of objects.now) }
{
    let [first, rest @ ..] = objects else {
        return true;
    };
    let mut last = first.0;
    for object in rest {
        if object.0 <= last {
            return false;
        }
        last = object.0;
    }
    true
}

/// Whether all objects are of a world of so many.
pub fn are_below(objects: u16, numbers: &[ObjectId]) -> bool
    ensures { result ≡ list_all (λ x. nat_lt x objects) (numbers_of numbers.now) }
{
    let [first, rest @ ..] = numbers else {
        return true;
    };
    first.0 < objects && are_below(objects, rest)
}

/// Whether these may be observed together in a world of so many objects: 1 to 16 of them, ascending.
pub fn may_be_observed(objects: u16, observed: &[ObjectId]) -> bool
    ensures { result ≡ may_be_observed objects (numbers_of observed.now) }
{
    !observed.is_empty()
        && observed.len() <= MOST_READS
        && is_ascending(observed)
        && are_below(objects, observed)
}

/// Refuses an action that is not one of this shape, with the first cause that applies. It walks trees of any depth.
pub fn check_action(shape: Shape, action: &Action) -> Result<(), BadAction>
    ensures first { MatchResult result (λ _. first_fault_of_action shape action.now ≡ None) (λ cause. first_fault_of_action shape action.now ≡ Some cause) }
    ensures good { OnOk result (IsGoodAction shape action.now) }
{
    match first_fault(shape, action) {
        None => Ok(()),
        Some(cause) => Err(cause),
    }
}

#[tactic(auto, unfolding(crate::specs::Faults::first_fault_of_action))]
fn first_fault(shape: Shape, action: &Action) -> Option<BadAction>
    ensures { result ≡ first_fault_of_action shape action.now }
{
    if has_no_reads(action) {
        return Some(BadAction::NoReads);
    }
    if has_too_many_reads(action) {
        return Some(BadAction::TooManyReads);
    }
    if is_not_ascending(action) {
        return Some(BadAction::NotAscending);
    }
    if reads_no_object(shape, action) {
        return Some(BadAction::NoSuchObject);
    }
    if has_bad_mask(action) {
        return Some(BadAction::BadMask);
    }
    if has_sound_body(shape, action) {
        return if has_origin(action) {
            None
        } else {
            Some(BadAction::BadOrigin)
        };
    }
    if !has_slots(action) {
        return Some(BadAction::BadSlot);
    }
    if !sets_in_mask(action) {
        return Some(BadAction::NotWritable);
    }
    if !has_attrs(shape, action) {
        return Some(BadAction::BadAttr);
    }
    if is_too_large(action) {
        return Some(BadAction::TooLarge);
    }
    Some(BadAction::TooDeep)
}

/// A law of the causes: none applies to an action exactly where the action is good.
pub fn good_actions_have_no_fault()
    ensures { (shape : Shape) (action : Action) → (first_fault_of_action shape action ≡ None) ↔ IsGoodAction shape action }
{}

#[tactic(auto, unfolding(crate::specs::Faults::has_no_reads))]
fn has_no_reads(action: &Action) -> bool
    ensures { result ≡ has_no_reads action.now }
{
    action.reads.len() == 0
}

#[tactic(auto, unfolding(crate::specs::Faults::has_too_many_reads))]
fn has_too_many_reads(action: &Action) -> bool
    ensures { result ≡ has_too_many_reads action.now }
{
    action.reads.len() > MOST_READS
}

#[tactic(auto, unfolding(crate::specs::Faults::is_not_ascending))]
fn is_not_ascending(action: &Action) -> bool
    ensures { result ≡ is_not_ascending action.now }
{
    !is_ascending(action.reads.as_slice())
}

#[tactic(auto, unfolding(crate::specs::Faults::reads_no_object))]
fn reads_no_object(shape: Shape, action: &Action) -> bool
    ensures { result ≡ reads_no_object shape action.now }
{
    for object in action.reads.as_slice() {
        if object.0 >= shape.objects {
            return true;
        }
    }
    false
}

#[tactic(auto, unfolding(crate::specs::Faults::has_bad_mask))]
fn has_bad_mask(action: &Action) -> bool
    ensures { result ≡ has_bad_mask action.now }
{
    let mask = action.mask;
    let reads = action.reads.len();
    reads < MOST_READS && mask >> reads > 0
}

/// Whether nothing is at fault in the body, by one walk over it. Where it answers no, the causes are looked for in their order.
#[tactic(auto, unfolding(crate::specs::Faults::has_slots, crate::specs::Faults::sets_in_mask, crate::specs::Faults::has_attrs, crate::specs::Faults::is_too_large, crate::specs::Faults::is_too_deep))]
fn has_sound_body(shape: Shape, action: &Action) -> bool
    ensures { result ≡ ((has_slots action.now && (sets_in_mask action.now && has_attrs shape action.now)) && (not (is_too_large action.now) && not (is_too_deep action.now))) }
{
    let limits = Limits {
        reads: action.reads.len(),
        mask: action.mask,
        attrs: shape.attrs,
    };
    let mut nodes = NodeCursor::new(action.body.nodes());
    match block_fits(&mut nodes, &limits, MOST_DEPTH, MOST_NODES) {
        Some(_) => true,
        None => false,
    }
}

#[tactic(auto, using(crate::proofs::NodeTests::body_pass), unfolding(crate::specs::Faults::has_slots))]
fn has_slots(action: &Action) -> bool
    ensures { result ≡ has_slots action.now }
{
    let reads = action.reads.len();
    passes_in_nodes(NameTest::Slot { reads }, action.body.nodes())
}

#[tactic(auto, using(crate::proofs::NodeTests::body_pass), unfolding(crate::specs::Faults::sets_in_mask))]
fn sets_in_mask(action: &Action) -> bool
    ensures { result ≡ sets_in_mask action.now }
{
    let mask = action.mask;
    passes_in_nodes(NameTest::Writable { mask }, action.body.nodes())
}

#[tactic(auto, using(crate::proofs::NodeTests::body_pass), unfolding(crate::specs::Faults::has_attrs))]
fn has_attrs(shape: Shape, action: &Action) -> bool
    ensures { result ≡ has_attrs shape action.now }
{
    let attrs = shape.attrs;
    passes_in_nodes(NameTest::Attr { attrs }, action.body.nodes())
}

#[tactic(auto, using(crate::proofs::NodeTests::body_weight), unfolding(crate::specs::Faults::is_too_large))]
fn is_too_large(action: &Action) -> bool
    ensures { result ≡ is_too_large action.now }
{
    weight(action.body.nodes()) > MOST_NODES as usize
}

fn is_in_plane(coordinate: i32) -> bool
    ensures { result ≡ is_in_plane coordinate }
{
    coordinate >= LEAST_COORDINATE && coordinate <= GREATEST_COORDINATE
}

#[tactic(auto, unfolding(crate::specs::Faults::has_origin))]
fn has_origin(action: &Action) -> bool
    ensures { result ≡ has_origin action.now }
{
    is_in_plane(action.origin.x) && is_in_plane(action.origin.y)
}
