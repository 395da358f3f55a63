//! The snapshots that a run tells, taken by clients that do their traces again.
ghost use Rattle.std.specs.Prelude.{◌≡◌, ◌++◌, ◌<◌, ◌≤◌, ℕ, ℤ, List, [], All, reverse, length, unwrap_or, option_to_list, IfOk, OnOk};
ghost use Rattle.std.specs.Option.{option_copied};
ghost use Rattle.std.specs.List.{flat_map};
ghost use Rattle.sv_world.specs.Limits.{most_positions};
ghost use Rattle.sv_world.specs.Sets.{numbers_of};
ghost use Rattle.sv_versions.specs.Held.{read_below};
ghost use Rattle.sv_journal.specs.History.{actions_of};
ghost use Rattle.sv_journal.specs.Answer.{Rules, Legal};
ghost use Rattle.sv_client.specs.Traces.{held_of};
ghost use Rattle.sv_client.specs.Taking.{told};
ghost use Rattle.sv_client.specs.Proper.{AreProper, Proper};
ghost use Rattle.sv_client.specs.Evaluating.{ItemsAreAbove, AreWithin, ItemsReadWithin};
ghost use Rattle.law_system.specs.Fits.{Fits};
ghost use Rattle.sv_looks.specs.Snapshots.{last_item, read_all_below, snapshot_at, snapshot_seen, snapshot_by, snapshots_in, snapshots_of, snapshots_of_trace};
ghost use Rattle.sv_looks.specs.Cuts.{IsCut};
ghost use Rattle.sv_looks.specs.Again.{IsReadable};

use crate::looks::is_look;
use crate::snapshot::Snapshot;
use law_system::{Played, replicas_equal_serial_execution};
use std::alloc::{AllocError, Global};
use sv_client::{Client, Event, Trace, View};
use sv_lists::List;
use sv_report::do_again;
use sv_wire::{Item, ObjectValue, Reply};
use sv_world::{ObjectId, Shape, Value, copy_objects, copy_value};

/// The value of an object below a position. A client that took a relay holds one of each object that the last item reads.
fn value_below(
    alloc: Global,
    client: &Client,
    object: ObjectId,
    pos: u32,
) -> Result<Value, AllocError>
    requires object { object.0 < client.now.who.shape.objects }
    requires above { told client.now.events < pos }
    ensures { IfOk result (λ value. value ≡ unwrap_or (read_below (held_of client.now.events) object.0 pos) []) }
{
    match client.value_below(object, pos) {
        View::Known(value) => copy_value(alloc, value),
        View::Unknown => Ok(Value::new(alloc)),
    }
}

/// The values of objects below a position.
fn values_below(
    alloc: Global,
    client: &Client,
    objects: &[ObjectId],
    pos: u32,
) -> Result<List<ObjectValue>, AllocError>
    requires objects { AreWithin client.now.who.shape.objects objects.now }
    requires above { told client.now.events < pos }
    ensures { IfOk result (λ values. values ≡ read_all_below (held_of client.now.events) pos objects.now) }
{
    let mut values = List::new(alloc);
    for object in objects {
        let value = value_below(alloc, client, *object, pos)?;
        values.push(ObjectValue {
            object: *object,
            value,
        })?;
    }
    Ok(values)
}

fn last_item(items: &[Item]) -> Option<&Item>
    ensures { option_copied result ≡ last_item items.now }
{
    items.last()
}

/// The snapshot of the relay that answers a Submit with these items, where it is a look's.
fn snapshot_at(
    alloc: Global,
    client: &Client,
    seq: u32,
    items: &[Item],
) -> Result<Option<Snapshot>, AllocError>
    requires reads { ItemsReadWithin client.now.who.shape.objects items.now }
    requires above { ItemsAreAbove (told client.now.events) items.now }
    ensures { IfOk result (λ snapshot. snapshot ≡ snapshot_at client.now.who.client seq (held_of client.now.events) (last_item items.now)) }
{
    match last_item(items) {
        Some(item) if is_look(&item.action) => Ok(Some(Snapshot {
            client: client.id(),
            seq: Some(seq),
            pos: item.pos,
            values: values_below(alloc, client, item.action.reads.as_slice(), item.pos)?,
        })),
        _ => Ok(None),
    }
}

/// The snapshot of these objects, which were seen at the position `last`.
fn snapshot_seen(
    alloc: Global,
    client: &Client,
    last: u32,
    objects: &[ObjectId],
) -> Result<Snapshot, AllocError>
    requires objects { AreWithin client.now.who.shape.objects objects.now }
    requires above { told client.now.events ≤ last }
    requires placed { last ≤ most_positions }
    ensures { IfOk result (λ snapshot. snapshot ≡ snapshot_seen client.now.who.client last (held_of client.now.events) (numbers_of objects.now)) }
{
    let pos = last + 1;
    Ok(Snapshot {
        client: client.id(),
        seq: None,
        pos,
        values: values_below(alloc, client, objects, pos)?,
    })
}

/// The snapshot that the event tells that a client did last, where its reply shows these objects.
fn snapshot_by(
    alloc: Global,
    client: &Client,
    observed: &[ObjectId],
    event: &Event,
) -> Result<Option<Snapshot>, AllocError>
    requires objects { AreWithin client.now.who.shape.objects observed.now }
    requires readable { IsReadable client.now.who client.now.events event.now }
    ensures { IfOk result (λ snapshot. snapshot ≡ snapshot_by client.now.who.client (held_of client.now.events) (numbers_of observed.now) event.now) }
{
    match event {
        Event::Got(_, Reply::Relay { seq, items, .. }) if *seq != 0 => {
            snapshot_at(alloc, client, *seq, items.as_slice())
        }
        Event::Got(_, Reply::Seen { last, .. }) => {
            Ok(Some(snapshot_seen(alloc, client, *last, observed)?))
        }
        _ => Ok(None),
    }
}

fn push_some(snapshots: &mut Vec<Snapshot>, more: Option<Snapshot>) -> Result<(), AllocError>
    ensures { OnOk result (snapshots.new.items ≡ snapshots.old.items ++ option_to_list more) }
{
    if let Some(snapshot) = more {
        snapshots.push(snapshot)?;
    }
    Ok(())
}

/// Appends the snapshots that a trace tells. The client does each event again, so that it holds at each relay what it held then.
fn append_told(
    alloc: Global,
    client: &mut Client,
    trace: &Trace,
    snapshots: &mut Vec<Snapshot>,
) -> Result<(), AllocError>
    requires start { client.old.events ≡ [] }
    requires proper { AreProper client.old.who trace.now.first (reverse trace.now.events) }
    ensures { OnOk result (snapshots.new.items ≡ snapshots.old.items ++ snapshots_in client.old.who (reverse trace.now.events)) }
{
    let events = trace.events.as_slice();
    for event in events {
        let observed = copy_objects(alloc, client.observed())?;
        do_again(alloc, client, event)?;
        let more = snapshot_by(alloc, client, observed.as_slice(), event)?;
        push_some(snapshots, more)?;
    }
    Ok(())
}

fn append_trace(
    alloc: Global,
    shape: Shape,
    trace: &Trace,
    snapshots: &mut Vec<Snapshot>,
) -> Result<(), AllocError>
    requires { Proper shape trace.now }
    ensures { OnOk result (snapshots.new.items ≡ snapshots.old.items ++ snapshots_of_trace shape trace.now) }
{
    let interest = copy_objects(alloc, trace.interest.as_slice())?;
    let mut client = Client::new(alloc, trace.client, shape, interest)?;
    append_told(alloc, &mut client, trace, snapshots)
}

fn told_by(alloc: Global, played: &Played) -> Result<Vec<Snapshot>, AllocError>
    requires { All (Proper played.now.shape) played.now.traces }
    ensures { IfOk result (λ snapshots. snapshots.items ≡ snapshots_of played.now.shape played.now.traces) }
{
    let mut snapshots = Vec::new(alloc);
    for trace in played.traces.as_slice() {
        append_trace(alloc, played.shape, trace, &mut snapshots)?;
    }
    Ok(snapshots)
}

/// The snapshots that the clients of a run were told by their looks, and of what they observed: client by client, and each client's in the order
/// in which it was told.
///
/// A look that was dropped, or settled without a relay, tells none; nor does another client's, though it is among the items of a relay.
/// Where the journal is legal and the traces fit it, as they do after every run, each snapshot is one cut: its values are those of the
/// serial world just before its position. Whoever reads them apart may see some before and some after another client's action; here
/// they are of one moment.
pub fn snapshots(alloc: Global, played: &Played) -> Result<Vec<Snapshot>, AllocError>
    requires { All (Proper played.now.shape) played.now.traces }
    ensures exact { IfOk result (λ snapshots. snapshots.items ≡ snapshots_of played.now.shape played.now.traces) }
    ensures cuts { (r : Rules) → length r.world.values ≡ r.world.shape.objects → played.now.shape ≡ r.world.shape
        → Legal r (reverse played.now.journal.entries) → Fits r.world.shape (reverse played.now.journal.entries) played.now.traces
        → IfOk result (λ snapshots. All (IsCut r.world.values (actions_of (reverse played.now.journal.entries))) snapshots.items) }
{
    replicas_equal_serial_execution();
    let told = told_by(alloc, played)?;
    Ok(told)
}
