//! Which replies a request may have.
ghost use Rattle.std.specs.Prelude.{◌≡◌, Some};
ghost use Rattle.sv_world.specs.Sets.{numbers_of};
ghost use Rattle.sv_client.specs.Kinds.{allows_kind};
ghost use Rattle.sv_client.specs.Taking.{observed_by};
ghost use Rattle.sv_client.specs.Evaluating.{objects_of};

use sv_lists::List;
use sv_wire::Reply;
use sv_world::ObjectId;

/// What was asked and has no reply yet.
#[derive(Debug, Drop)]
pub(crate) enum Awaited {
    Join,
    Submit,
    Done,
    Poll,
    /// What these objects are.
    Observe(List<ObjectId>),
    Leave,
}

/// Whether a reply is of a kind that this request may have.
pub(crate) fn allows_kind(awaited: &Awaited, reply: &Reply) -> bool
    ensures { result ≡ allows_kind awaited.now reply.now }
{
    match reply {
        Reply::Welcome { .. } => matches!(awaited, Awaited::Join),
        Reply::Relay { .. } => matches!(awaited, Awaited::Submit | Awaited::Poll),
        Reply::Dropped { .. } | Reply::Denied { .. } | Reply::Settled { .. } => {
            matches!(awaited, Awaited::Submit)
        }
        Reply::Noted { .. } => matches!(awaited, Awaited::Done),
        Reply::Idle => matches!(awaited, Awaited::Poll),
        Reply::Seen { .. } => matches!(awaited, Awaited::Observe(_)),
        Reply::Bye => matches!(awaited, Awaited::Leave),
        Reply::Refused { .. } => false,
    }
}

/// The objects that are observed by what is awaited.
pub(crate) fn observed_by(awaited: &Awaited) -> &[ObjectId]
    ensures objects { result.now ≡ objects_of awaited.now }
    ensures numbers { numbers_of result.now ≡ observed_by (Some awaited.now) }
{
    match awaited {
        Awaited::Observe(objects) => objects.as_slice(),
        Awaited::Join | Awaited::Submit | Awaited::Done | Awaited::Poll | Awaited::Leave => &[],
    }
}
