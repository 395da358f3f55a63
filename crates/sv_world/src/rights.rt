//! Who may write what.
ghost use Rattle.std.specs.Prelude.{◌≡◌, not, filter, option_map};
ghost use Rattle.std.specs.List.{list_any};
ghost use Rattle.sv_world.specs.declared.world.ObjectId.{ObjectId};
ghost use Rattle.sv_world.specs.Rights.{is_in_range, allows, may_write, first_of, first_forbidden};
ghost use Rattle.sv_world.specs.Sets.{at_mask, numbers_of};

use crate::{Action, ClientId, ObjectId, is_in_mask};
use sv_lists::List;

/// Numbers from a first to a last one. There are none where the last is below the first.
#[derive(Clone, Copy, Debug, Drop, PartialEq, Eq)]
pub struct NumberRange {
    pub first: u16,
    pub last: u16,
}

/// These clients may write these objects.
#[derive(Clone, Copy, Debug, Drop, PartialEq, Eq)]
pub struct Right {
    pub clients: NumberRange,
    pub objects: NumberRange,
}

impl NumberRange {
    fn has(self, number: u16) -> bool
        ensures { result ≡ is_in_range self number }
    {
        self.first <= number && number <= self.last
    }
}

impl Right {
    fn allows(self, client: u16, object: u16) -> bool
        ensures { result ≡ allows client object self }
    {
        self.clients.has(client) && self.objects.has(object)
    }
}

/// Whether one of the rights allows a client to write an object.
fn is_allowed(rights: &[Right], client: u16, object: u16) -> bool
    ensures { result ≡ list_any (allows client object) rights.now }
{
    for right in rights {
        if right.allows(client, object) {
            return true;
        }
    }
    false
}

/// Whether a client may write an object. Without rights everybody may write everything.
pub fn may_write(rights: &Option<List<Right>>, client: ClientId, object: ObjectId) -> bool
    ensures { result ≡ may_write rights.now client.0 object.0 }
{
    match rights {
        Some(rights) => is_allowed(rights.as_slice(), client.0, object.0),
        None => true,
    }
}

/// The lowest object that an action writes and its client may not write.
pub fn first_forbidden(
    rights: &Option<List<Right>>,
    client: ClientId,
    action: &Action,
) -> Option<ObjectId>
    ensures { option_map (λ (o : ObjectId). o.0) result ≡ first_forbidden rights.now client.0 action.now }
{
    forbidden_in(rights, client, action.mask, action.reads.as_slice())
}

/// The first of the objects at the slots in a mask that a client may not write.
fn forbidden_in(
    rights: &Option<List<Right>>,
    client: ClientId,
    mask: u16,
    reads: &[ObjectId],
) -> Option<ObjectId>
    ensures { option_map (λ (o : ObjectId). o.0) result ≡ first_of (filter (λ object. not (may_write rights.now client.0 object)) (at_mask mask 0 (numbers_of reads.now))) }
{
    for (slot, object) in reads.iter().enumerate() {
        if is_in_mask(mask, slot) && !may_write(rights, client, *object) {
            return Some(*object);
        }
    }
    None
}
