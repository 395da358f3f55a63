//! The greatest commit that a client was told.
ghost use Rattle.std.specs.Prelude.{◌≡◌};
ghost use Rattle.sv_client.specs.Taking.{told_by};

use sv_wire::Reply;

/// The greatest commit told, with that of a reply.
pub(crate) fn told_by(reply: &Reply, told: u32) -> u32
    ensures { result ≡ told_by reply.now told }
{
    match reply {
        Reply::Welcome { commit, .. }
        | Reply::Relay { commit, .. }
        | Reply::Seen { commit, .. }
        | Reply::Noted { commit } => told.max(*commit),
        Reply::Dropped { .. }
        | Reply::Denied { .. }
        | Reply::Settled { .. }
        | Reply::Idle
        | Reply::Refused { .. }
        | Reply::Bye => told,
    }
}
