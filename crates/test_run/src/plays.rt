//! Plays and loads: threads over links in memory, and over loopback TCP.

use crate::calls::{Desk, called_well};
use crate::texts::*;
use std::alloc::{AllocError, Global};
use std::net::{Net as Sockets, TcpListener, TcpStream};
use std::sync::Wait;
use std::test::Fail;
use std::thread::Threads;
use sv_link::{HoldGate, OpenGate, TcpNet, ThreadCrew};
use test_calls::Printed;
use test_calls::examples::*;
use test_calls::scenarios::*;

/// Words, the scenario, and what is printed.
type Row<'a> = (&'a str, &'a str, &'a str);

/// Runs that print the same at each call.
const ROWS: [Row<'static>; 11] = [
    ("play a", FIRST, FIRST_REPORT),
    ("play a --brief", FIRST, FIRST_BRIEF),
    ("play a --watch", FIRST, FIRST_WATCHED),
    ("play a", EMPTY_SCRIPT, EMPTY_SCRIPT_REPORT),
    ("play a --watch", EMPTY_SCRIPT, EMPTY_SCRIPT_REPORT),
    ("play a", UNKNOWN_VIEW, UNKNOWN_VIEW_REPORT),
    ("play a --brief", BOUND_0, BOUND_0_BRIEF),
    ("play a --brief", APART, APART_BRIEF),
    ("load 1", FIRST, LOAD_1),
    ("load 16", FIRST, LOAD_16),
    ("load 192", FIRST, LOAD_192),
];

/// The program's answer over loopback TCP.
pub fn called_over_tcp<R>(
    rt: &R,
    alloc: Global,
    line: &str,
    text: &str,
) -> Result<Printed, AllocError>
where
    R: Threads + Wait + Sync + Sockets<Listener = TcpListener, Stream = TcpStream>,
{
    let desk = Desk::new(alloc, text, TcpNet::new(alloc, rt), ThreadCrew::new(alloc))?;
    desk.called(rt, alloc, line, &OpenGate)
}

#[test]
fn plays_print_their_reports(rt: HostRuntime) -> Result<(), Fail> {
    for (line, text, out) in ROWS {
        let printed = called_well(&rt, rt.alloc(), line, text, &OpenGate)?;
        assert!(rt; printed.is(0, out, ""));
    }
    Ok(())
}

#[test]
fn plays_print_their_reports_over_sockets(rt: HostRuntime) -> Result<(), Fail> {
    for (line, text, out) in ROWS {
        let printed = called_over_tcp(&rt, rt.alloc(), line, text)?;
        assert!(rt; printed.is(0, out, ""));
    }
    Ok(())
}

/// The double comes before the three other actions, after some, or last.
const WORLDS: [&str; 3] = [
    "\nworld 4\n0=(58)\n",
    "\nworld 4\n0=(61)\n",
    "\nworld 4\n0=(56)\n",
];

fn is_in_a_world(printed: &Printed) -> bool {
    printed.status == 0
        && WORLDS
            .iter()
            .any(|world| printed.out.bytes().ends_with(world.as_bytes()))
}

fn ends_in_a_world<R: Threads + Wait + Sync>(rt: &R, alloc: Global) -> Result<bool, AllocError> {
    let printed = called_well(rt, alloc, "play a", CONFLICT, &OpenGate)?;
    let is_so = is_in_a_world(&printed);
    drop(printed);
    Ok(is_so)
}

#[test]
fn conflicts_end_in_a_serial_world(rt: HostRuntime) -> Result<(), Fail> {
    for _ in 0..20 {
        assert!(rt; ends_in_a_world(&rt, rt.alloc())?);
    }
    Ok(())
}

#[test]
fn clients_cut_rejoin_and_quit(rt: HostRuntime) -> Result<(), Fail> {
    for _ in 0..20 {
        let printed = called_well(&rt, rt.alloc(), "play a --brief", REJOINING, &OpenGate)?;
        assert!(rt; printed.is(0, REJOINING_BRIEF, ""));
    }
    Ok(())
}

#[test]
fn sessions_run_at_once(rt: HostRuntime) -> Result<(), Fail> {
    let gate = HoldGate::new(0, 2, 1, 3);
    let printed = called_well(&rt, rt.alloc(), "play a --brief", APART, &gate)?;
    let has_met = gate.met() && !gate.gave_up();
    assert!(rt; printed.is(0, APART_BRIEF, ""));
    assert!(rt; has_met);
    Ok(())
}
