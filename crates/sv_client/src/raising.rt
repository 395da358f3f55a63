//! Raising the numbers of the sessions that events name.
ghost use Rattle.std.specs.Prelude.{◌≡◌, ◌<◌, map, All};
ghost use Rattle.sv_world.specs.Limits.{most_sessions};
ghost use Rattle.sv_client.specs.Seen.{raised, NamesBelow};

use crate::trace::Event;

fn raise_event(event: &mut Event, first: u16)
    requires first { first < most_sessions }
    requires names { NamesBelow most_sessions event.old }
    ensures { event.new ≡ raised first event.old }
{
    match event {
        Event::Join(session) => *session += first,
        Event::Got(session, _) => *session += first,
        Event::Make(_)
        | Event::Poll
        | Event::Observe(..)
        | Event::Leave
        | Event::Cut
        | Event::Quit
        | Event::Show(_) => {}
    }
}

/// Raises the numbers of the sessions that events name.
pub(crate) fn raise_events(events: &mut [Event], first: u16)
    requires first { first < most_sessions }
    requires names { All (NamesBelow most_sessions) events.old }
    ensures { events.new ≡ map (raised first) events.old }
{
    for place in 0..events.len() {
        raise_event(&mut events[place], first);
    }
}
