//! Actions that only look.
ghost use Rattle.std.specs.Prelude.{◌≡◌, ◌∷◌, ◌<◌, ◌==◌, [], true, length, IfOk, OnOk, OnErr, MatchResult};
ghost use Rattle.sv_client.specs.declared.trace.Event.TheVariants as events;
ghost use Rattle.sv_client.specs.Traces.{makes};
ghost use Rattle.sv_client.specs.Proper.{MayMake, in_session, most_made};
ghost use Rattle.sv_client.specs.Seen.{newly_asked, with_event};
ghost use Rattle.sv_client.specs.Answers.{IsMakeFault};
ghost use Rattle.sv_looks.specs.Snapshots.{is_look, look_at};

use std::alloc::{AllocError, Global};
use sv_client::{Client, MakeFault};
use sv_wire::Request;
use sv_world::{Action, Body, ObjectId, Point, Reads, block_head};

fn is_empty(body: &Body) -> bool
    ensures { result ≡ (length body.now == 0) }
{
    let (count, _) = block_head(body.nodes());
    count == 0
}

/// Whether an action only looks: it may write nothing, and has no statements.
pub fn is_look(action: &Action) -> bool
    ensures { result ≡ is_look action.now }
{
    action.mask == 0 && is_empty(&action.body)
}

fn look_at(alloc: Global, objects: &[ObjectId], origin: Point) -> Result<Action, AllocError>
    ensures { IfOk result (λ action. action ≡ look_at objects.now origin) }
{
    Ok(Action {
        reads: Reads::from_slice(alloc, objects)?,
        mask: 0,
        origin,
        body: Body::from_stmts(alloc, &[])?,
    })
}

/// Makes a look at 1 to 16 objects, ascending, and answers its Submit. What it is told comes with the relay of this Submit.
///
/// It is pending until then, as any action is. The refusals are those of `Client::make`: `BadAction` tells of objects that are none, too
/// many, not ascending or none of the world, and of an origin that is too far.
pub fn look(
    alloc: Global,
    client: &mut Client,
    objects: &[ObjectId],
    origin: Point,
) -> Result<Request, MakeFault>
    requires joined { in_session client.old.events ≡ true }
    requires few { makes client.old.events < most_made }
    ensures request { IfOk result (λ request. request ∷ [] ≡ newly_asked client.old.who client.old.events (events.Make (look_at objects.now origin))) }
    ensures ok { OnOk result (client.new ≡ with_event client.old (events.Make (look_at objects.now origin))) }
    ensures err { OnErr result (client.new ≡ client.old) }
    ensures cause { MatchResult result (λ _. MayMake client.old.who client.old.events (look_at objects.now origin))
        (IsMakeFault client.old.who client.old.events (look_at objects.now origin)) }
{
    let action = look_at(alloc, objects, origin)?;
    client.make(action)
}
