//! Traces of clients, and their events.
ghost use Rattle.std.specs.Prelude.{◌≡◌};
ghost use Rattle.sv_client.specs.Traces.{is_make};

use sv_lists::List;
use sv_wire::Reply;
use sv_world::{Action, ClientId, ObjectId};

/// One step of a client.
#[derive(Debug, Drop)]
pub enum Event {
    /// It began this session, with a Join and a Submit for each pending action.
    Join(u16),
    /// It made an action, and sent its Submit.
    Make(Action),
    Poll,
    /// It asked what these objects are, and would wait for news for so many milliseconds.
    Observe(List<ObjectId>, u16),
    Leave,
    /// It took a reply of this session, and sent the Done of its items.
    Got(u16, Reply),
    /// It closed its session's link, to begin another session later.
    Cut,
    /// It closed its session's link for good.
    Quit,
    /// It looked at these objects.
    Show(List<ObjectId>),
}

/// Whether a client made an action by an event.
pub fn is_make(event: &Event) -> bool
    ensures { result ≡ is_make event.now }
{
    matches!(event, Event::Make(_))
}

/// What is noted in a trace beside the calls of a client.
#[derive(Debug, Drop)]
pub enum TraceMark {
    Cut,
    Quit,
    Show(List<ObjectId>),
}

/// All that a client did. Its sessions are numbered upwards from `first`.
#[derive(Debug, Drop)]
pub struct Trace {
    pub client: ClientId,
    pub interest: List<ObjectId>,
    pub first: u16,
    pub events: List<Event>,
}
