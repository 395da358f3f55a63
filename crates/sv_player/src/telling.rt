//! Telling what an event changed of the views.
ghost use Rattle.std.specs.Prelude.{◌≡◌, ◌<◌, ◌++◌, map, All, IfOk, OnOk};
ghost use Rattle.sv_client.specs.Answers.{view_seen};
ghost use Rattle.sv_script.specs.Telling.{same_view};
ghost use Rattle.sv_watch.specs.Told.{change_line, IsChangeIn};
ghost use Rattle.sv_player.specs.Seen.{seen_of, seen_by, seen_again, change_since, changes_since};

use std::alloc::{AllocError, Global};
use std::slice;
use sv_client::{Client, View};
use sv_watch::{Change, Line, Watch};
use sv_world::{ObjectId, Value, copy_value};

/// An object, and what its client saw of it, with `None` where that was unknown.
#[derive(Debug, Drop)]
pub(crate) struct Seen {
    pub(crate) object: ObjectId,
    pub(crate) view: Option<Value>,
}

/// A copy of what is known of an object.
fn known(alloc: Global, view: View<'_>) -> Result<Option<Value>, AllocError>
    ensures { IfOk result (λ value. value ≡ view_seen view.entry) }
{
    match view {
        View::Known(value) => Ok(Some(copy_value(alloc, value)?)),
        View::Unknown => Ok(None),
    }
}

/// What a client sees of the objects of its interest.
pub(crate) fn seen_now(alloc: Global, client: &Client) -> Result<Vec<Seen>, AllocError>
    ensures { IfOk result (λ seen. seen.items ≡ seen_by client.now.events client.now.who.interest) }
{
    let mut seen = Vec::new(alloc);
    for object in client.interest() {
        let view = known(alloc, client.view(*object))?;
        seen.push(Seen {
            object: *object,
            view,
        })?;
    }
    Ok(seen)
}

/// Whether a view is what it was.
fn is_same(old: &Option<Value>, now: &View<'_>) -> bool
    ensures { result ≡ same_view old.now (view_seen now.now) }
{
    match (old, now) {
        (None, View::Unknown) => true,
        (Some(value), View::Known(other)) => value.as_slice() == other.as_slice(),
        _ => false,
    }
}

/// Tells the change of an object's view since it was seen, if there is one, and sees the view as it is now.
fn tell_change(
    client: &Client,
    event: u32,
    seen: &mut Seen,
    watch: &Watch,
    lines: &mut Vec<Line>,
) -> Result<(), AllocError>
    requires { All (IsChangeIn watch.now.shape) (change_since client.now event seen.old) }
    ensures told { OnOk result (lines.new.items ≡ lines.old.items ++ map change_line (change_since client.now event seen.old)) }
    ensures seen { OnOk result (seen.new ≡ seen_of client.now.events seen.old.object) }
{
    let now = client.view(seen.object);
    if is_same(&seen.view, &now) {
        return Ok(());
    }
    let new = known(*lines.allocator(), now)?;
    let change = Change {
        client: client.id(),
        object: seen.object,
        event,
        old: seen.view.take(),
        new,
    };
    watch.tell(slice::from_ref(&change), lines)?;
    seen.view = change.new;
    Ok(())
}

/// Tells the changes of views since they were seen, which the event with this number made, and sees the views as they are now.
pub(crate) fn tell_changes(
    client: &Client,
    event: u32,
    seen: &mut [Seen],
    watch: &Watch,
    lines: &mut Vec<Line>,
) -> Result<(), AllocError>
    requires { All (IsChangeIn watch.now.shape) (changes_since client.now event seen.old) }
    ensures told { OnOk result (lines.new.items ≡ lines.old.items ++ map change_line (changes_since client.now event seen.old)) }
    ensures seen { OnOk result (seen.new ≡ seen_again client.now.events seen.old) }
{
    for one in seen.iter_mut() {
        tell_change(client, event, one, watch, lines)?;
    }
    Ok(())
}
