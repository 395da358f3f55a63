//! The lines of what a client did.
ghost use Rattle.std.specs.Prelude.{◌≡◌, ◌++◌, [], All, codes, reverse, string_bytes, OnOk};
ghost use Rattle.std.specs.List.{flat_map};
ghost use Rattle.sv_client.specs.Proper.{AreProper, Proper};
ghost use Rattle.sv_report.specs.Report.{event_lines, trace_text};

use crate::event::tell_again;
use crate::next::next_for;
use std::alloc::{AllocError, Global};
use sv_client::{Client, Trace};
use sv_journal::Entry;
use sv_world::{Shape, copy_objects};

/// Appends a line for each event, which the client does again.
///
/// The entries of the client's latest session are gone through once, from its first reply to its last.
fn append_events(
    alloc: Global,
    entries: &[Entry],
    client: &mut Client,
    trace: &Trace,
    out: &mut String,
) -> Result<(), AllocError>
    requires start { client.old.events ≡ [] }
    requires proper { AreProper client.old.who trace.now.first (reverse trace.now.events) }
    ensures { OnOk result (string_bytes out.new ≡ string_bytes out.old ++ event_lines entries.now (reverse trace.now.events)) }
{
    let events = trace.events.as_slice();
    let mut place = 0;
    for event in events {
        let next = next_for(entries, place, event);
        tell_again(alloc, client, next.number, event, out)?;
        place = next.behind;
    }
    Ok(())
}

/// Appends the client's number, and a line for each of its events.
fn append_trace(
    alloc: Global,
    shape: Shape,
    entries: &[Entry],
    trace: &Trace,
    out: &mut String,
) -> Result<(), AllocError>
    requires { Proper shape trace.now }
    ensures { OnOk result (string_bytes out.new ≡ string_bytes out.old ++ trace_text entries.now trace.now) }
{
    let number = trace.client.0;
    write!(out, "client {number}\n")?;
    let interest = copy_objects(alloc, trace.interest.as_slice())?;
    let mut client = Client::new(alloc, trace.client, shape, interest)?;
    append_events(alloc, entries, &mut client, trace, out)
}

/// Appends what each client did.
pub(crate) fn append_traces(
    alloc: Global,
    shape: Shape,
    entries: &[Entry],
    traces: &[Trace],
    out: &mut String,
) -> Result<(), AllocError>
    requires { All (Proper shape) traces.now }
    ensures { OnOk result (string_bytes out.new ≡ string_bytes out.old ++ flat_map (trace_text entries.now) traces.now) }
{
    for trace in traces {
        append_trace(alloc, shape, entries, trace, out)?;
    }
    Ok(())
}
