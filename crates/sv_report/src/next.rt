//! Where the entries of a session stand among the journal's.
ghost use Rattle.std.specs.Prelude.{◌≡◌, ◌+◌, ◌≤◌, drop, length};
ghost use Rattle.sv_report.specs.Report.{entry_number};
ghost use Rattle.sv_report.specs.Again.{behind_next, number_from, place_after};

use sv_client::Event;
use sv_journal::Entry;

/// An entry of a session.
#[derive(Clone, Copy, Drop)]
pub(crate) struct NextEntry {
    /// Its number, from 1. Where there is none it is the one after the last, and for an event that gets no reply 0.
    pub number: usize,
    /// The place behind it, from 0.
    pub behind: usize,
}

/// The next entry of a session, from a place on.
fn next_entry(entries: &[Entry], session: u16, place: usize) -> NextEntry
    requires { place ≤ length entries.now }
    ensures number { result.number ≡ entry_number (drop place entries.now) session 0 (place + 1) }
    ensures behind { result.behind ≡ behind_next (drop place entries.now) session place }
{
    for at in place..entries.len() {
        if entries[at].session == session {
            return NextEntry {
                number: at + 1,
                behind: at + 1,
            };
        }
    }
    NextEntry {
        number: entries.len() + 1,
        behind: entries.len(),
    }
}

/// The entry of the reply that an event gets, sought from a place on, and the place for the next one.
pub(crate) fn next_for(entries: &[Entry], place: usize, event: &Event) -> NextEntry
    requires { place ≤ length entries.now }
    ensures number { result.number ≡ number_from entries.now place event.now }
    ensures behind { result.behind ≡ place_after entries.now place event.now }
{
    match event {
        Event::Join(_) => NextEntry {
            number: 0,
            behind: 0,
        },
        Event::Got(session, _) => next_entry(entries, *session, place),
        Event::Make(_)
        | Event::Poll
        | Event::Observe(_, _)
        | Event::Leave
        | Event::Cut
        | Event::Quit
        | Event::Show(_) => NextEntry {
            number: 0,
            behind: place,
        },
    }
}
