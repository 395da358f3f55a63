//! The program `dimboetu`: it hands its words to the top call that they are for, and ends with the status that this answers. `--help` and
//! `--version` it answers itself.
#![tactic(auto)]

ghost use Rattle.std.specs.Prelude.{◌≡◌, ◌≢◌, ◌⊎◌, codes, map, string_bytes, IfSome};
ghost use Rattle.sv_bytes.specs.Writing.{GrewOrRose};
ghost use Rattle.sv_main.specs.Answers.{Faults, Knows, Line, Output, Prints};
ghost use Rattle.sv_main.specs.Choice.{command_of};
ghost use Rattle.sv_main.specs.Notices.{Tells, notice_of};

mod choice;
mod commands;
mod hall;
mod help;
mod notices;

use crate::choice::command;
use crate::commands::TopCall;
use crate::hall::{OsDoors, OsFolders};
use crate::notices::{notice, print_text, text_of};
use http_server::Log;
use std::alloc::Global;
use std::hash::RandomState;
use std::net::{Net as Sockets, TcpListener, TcpStream};
use std::process::ExitCode;
use std::rt::{Clock, Stdin};
use std::sync::Wait;
use std::thread::Threads;
use std::{env, io};
use sv_audit::run_check;
use sv_bytes::{Files, OsFiles, OsSink, Sink};
use sv_door::TcpDoor;
use sv_ending::{Ending, status_of, tell};
use sv_host::{Doors, Folders, HostParts, run_host};
use sv_join::run_join;
use sv_link::{OpenGate, TcpNet, ThreadCrew};
use sv_looks::run_looks;
use sv_mio::OsClock;
use sv_ports::Clock as Times;
use sv_run::run;
use sv_serve::run_serve;
use sv_witness::run_witness;

/// A call of the program: the words that it is given, and the memory that it works in.
#[derive(Drop)]
struct Call<'a> {
    alloc: Global,
    words: &'a [String],
}

fn words(rt: &HostRuntime) -> io::Result<Vec<String>> {
    let mut words = Vec::new(rt.alloc());
    for word in env::args(rt)?.skip(1) {
        words.push(word)?;
    }
    Ok(words)
}

/// The status where there is no memory, which is told.
fn without_memory<E: Sink>(err: &mut E) -> u8
    ensures status { result ≡ 8 }
    ensures told { GrewOrRose (E.taken err.old) (E.taken err.new) (E.faults err.old) (E.faults err.new) (codes "memory\n") }
{
    tell(&Ending::Memory, b"", None, err);
    status_of(&Ending::Memory)
}

/// The status of `run`, over connections on this machine and a thread for each job.
fn run_here<R, F: Files, K: Sink, E: Sink>(
    rt: &R,
    call: &Call<'_>,
    files: &mut F,
    out: &mut K,
    err: &mut E,
) -> u8
where
    R: Threads + Wait + Sync + Sockets<Listener = TcpListener, Stream = TcpStream>,
    ensures words { Knows TopCall.Run (map string_bytes call.now.words.now) result }
    ensures faults { Faults TopCall.Run (F.faults files.old) (F.faults files.new) (K.faults out.old) (K.faults out.new) result }
    ensures output { Output TopCall.Run (map string_bytes call.now.words.now) (F.contents files.old) (K.taken out.old) (K.taken out.new) result }
    ensures nothing { result ≢ 0 → result ≢ 5 → K.taken out.new ≡ K.taken out.old }
    ensures line { Line TopCall.Run (map string_bytes call.now.words.now) (F.sure files.old) (F.contents files.old) (E.taken err.old) (E.taken err.new) (E.faults err.old) (E.faults err.new) result }
{
    let mut net = TcpNet::new(call.alloc, rt);
    let mut crew = ThreadCrew::new(call.alloc);
    run(
        rt, call.alloc, call.words, files, &mut net, &mut crew, &OpenGate, out, err,
    )
}

/// The status of `serve`, to whoever connects on this machine, and with a thread for each session.
fn serve_here<R, F: Files, K: Sink, E: Sink>(
    rt: &R,
    call: &Call<'_>,
    files: &mut F,
    out: &mut K,
    err: &mut E,
) -> u8
where
    R: Threads + Wait + Sync + Clock + Sockets<Listener = TcpListener, Stream = TcpStream>,
    ensures words { Knows TopCall.Serve (map string_bytes call.now.words.now) result }
    ensures faults { Faults TopCall.Serve (F.faults files.old) (F.faults files.new) (K.faults out.old) (K.faults out.new) result }
    ensures output { Output TopCall.Serve (map string_bytes call.now.words.now) (F.contents files.old) (K.taken out.old) (K.taken out.new) result }
    ensures nothing { result ≢ 0 → result ≢ 5 → K.taken out.new ≡ K.taken out.old }
    ensures line { Line TopCall.Serve (map string_bytes call.now.words.now) (F.sure files.old) (F.contents files.old) (E.taken err.old) (E.taken err.new) (E.faults err.old) (E.faults err.new) result }
{
    let mut door = TcpDoor::new(call.alloc, rt);
    let mut crew = ThreadCrew::new(call.alloc);
    run_serve(
        rt, call.alloc, call.words, files, &mut door, &mut crew, &OpenGate, out, err,
    )
}

/// What a living world's server takes of the system.
#[derive(Drop)]
struct Hosting<'a> {
    runtime: &'a HostRuntime,
    input: Stdin,
    /// None where the system has no random bytes.
    random: Option<RandomState>,
}

/// The status of `host`, over these doors and folders.
fn host_with<R: Wait, D: Doors, S: Folders, C: Times, F: Files, E: Sink>(
    rt: &R,
    call: &Call<'_>,
    random: RandomState,
    doors: &mut D,
    folders: &mut S,
    clock: &mut C,
    files: &mut F,
    err: &mut E,
) -> u8
    ensures words { Knows TopCall.Host (map string_bytes call.now.words.now) result }
{
    let mut parts = HostParts {
        rt,
        alloc: call.alloc,
        random,
        doors,
        folders,
        clock,
        files,
        err,
    };
    run_host(&mut parts, call.words)
}

/// The status of `host`, to whoever connects.
fn host_here<R: Wait + Sockets + Clock, F: Files, E: Sink>(
    rt: &R,
    call: &Call<'_>,
    hosting: &Hosting<'_>,
    files: &mut F,
    err: &mut E,
) -> u8
    ensures words { Knows TopCall.Host (map string_bytes call.now.words.now) result }
    ensures random { hosting.now.random ≡ None → (result ≡ 8) × GrewOrRose (E.taken err.old) (E.taken err.new) (E.faults err.old) (E.faults err.new) (codes "memory\n") }
{
    let Some(random) = hosting.random else {
        return without_memory(err);
    };
    let mut doors = OsDoors {
        rt,
        alloc: call.alloc,
        input: hosting.input,
        closed: Log::new(),
    };
    let mut folders = OsFolders {
        rt: hosting.runtime,
    };
    let mut clock = OsClock::new(rt);
    host_with(
        rt,
        call,
        random,
        &mut doors,
        &mut folders,
        &mut clock,
        files,
        err,
    )
}

/// The status of `join`, at a server on this machine.
fn join_here<R, F: Files, K: Sink, E: Sink>(
    rt: &R,
    call: &Call<'_>,
    files: &mut F,
    out: &mut K,
    err: &mut E,
) -> u8
where
    R: Clock + Sockets<Listener = TcpListener, Stream = TcpStream>,
    ensures words { Knows TopCall.Join (map string_bytes call.now.words.now) result }
    ensures faults { Faults TopCall.Join (F.faults files.old) (F.faults files.new) (K.faults out.old) (K.faults out.new) result }
    ensures output { Output TopCall.Join (map string_bytes call.now.words.now) (F.contents files.old) (K.taken out.old) (K.taken out.new) result }
    ensures nothing { result ≢ 0 → result ≢ 5 → K.taken out.new ≡ K.taken out.old }
    ensures line { Line TopCall.Join (map string_bytes call.now.words.now) (F.sure files.old) (F.contents files.old) (E.taken err.old) (E.taken err.new) (E.faults err.old) (E.faults err.new) result }
{
    let mut door = TcpDoor::new(call.alloc, rt);
    run_join(call.alloc, call.words, files, &mut door, out, err)
}

/// The status of `looks`.
fn looks_here<F: Files, K: Sink, E: Sink>(
    call: &Call<'_>,
    files: &mut F,
    out: &mut K,
    err: &mut E,
) -> u8
    ensures words { Knows TopCall.Looks (map string_bytes call.now.words.now) result }
    ensures faults { Faults TopCall.Looks (F.faults files.old) (F.faults files.new) (K.faults out.old) (K.faults out.new) result }
    ensures output { Output TopCall.Looks (map string_bytes call.now.words.now) (F.contents files.old) (K.taken out.old) (K.taken out.new) result }
    ensures nothing { result ≢ 0 → result ≢ 5 → K.taken out.new ≡ K.taken out.old }
    ensures line { Line TopCall.Looks (map string_bytes call.now.words.now) (F.sure files.old) (F.contents files.old) (E.taken err.old) (E.taken err.new) (E.faults err.old) (E.faults err.new) result }
{
    run_looks(call.alloc, call.words, files, out, err)
}

/// The status of `witness`.
fn witness_here<F: Files, K: Sink, E: Sink>(
    call: &Call<'_>,
    files: &mut F,
    out: &mut K,
    err: &mut E,
) -> u8
    ensures words { Knows TopCall.Witness (map string_bytes call.now.words.now) result }
    ensures faults { Faults TopCall.Witness (F.faults files.old) (F.faults files.new) (K.faults out.old) (K.faults out.new) result }
    ensures output { Output TopCall.Witness (map string_bytes call.now.words.now) (F.contents files.old) (K.taken out.old) (K.taken out.new) result }
    ensures nothing { result ≢ 0 → result ≢ 5 → K.taken out.new ≡ K.taken out.old }
    ensures line { Line TopCall.Witness (map string_bytes call.now.words.now) (F.sure files.old) (F.contents files.old) (E.taken err.old) (E.taken err.new) (E.faults err.old) (E.faults err.new) result }
{
    run_witness(call.alloc, call.words, files, out, err)
}

/// The status of `check`, `why` and `world`.
fn check_here<F: Files, K: Sink, E: Sink>(
    call: &Call<'_>,
    files: &mut F,
    out: &mut K,
    err: &mut E,
) -> u8
    ensures words { Knows TopCall.Check (map string_bytes call.now.words.now) result }
    ensures faults { Faults TopCall.Check (F.faults files.old) (F.faults files.new) (K.faults out.old) (K.faults out.new) result }
    ensures output { Output TopCall.Check (map string_bytes call.now.words.now) (F.contents files.old) (K.taken out.old) (K.taken out.new) result }
    ensures nothing { result ≢ 0 → result ≢ 5 → K.taken out.new ≡ K.taken out.old }
    ensures line { Line TopCall.Check (map string_bytes call.now.words.now) (F.sure files.old) (F.contents files.old) (E.taken err.old) (E.taken err.new) (E.faults err.old) (E.faults err.new) result }
{
    run_check(call.alloc, call.words, files, out, err)
}

/// The status of what the words ask for: a notice, or the call that they are for.
fn answer<R, F: Files, K: Sink, E: Sink>(
    rt: &R,
    call: &Call<'_>,
    hosting: &Hosting<'_>,
    files: &mut F,
    out: &mut K,
    err: &mut E,
) -> u8
where
    R: Threads + Wait + Sync + Clock + Sockets<Listener = TcpListener, Stream = TcpStream>,
    ensures notice { IfSome (notice_of (map string_bytes call.now.words.now)) (λ notice. ((result ≡ 0) ⊎ (result ≡ 5)) × Prints (Tells notice) (K.taken out.old) (K.taken out.new) result) }
    ensures notice_line { IfSome (notice_of (map string_bytes call.now.words.now)) (λ notice. result ≡ 5 → GrewOrRose (E.taken err.old) (E.taken err.new) (E.faults err.old) (E.faults err.new) (codes "out\n")) }
    ensures words { notice_of (map string_bytes call.now.words.now) ≡ None → Knows (command_of (map string_bytes call.now.words.now)) (map string_bytes call.now.words.now) result }
    ensures faults { notice_of (map string_bytes call.now.words.now) ≡ None → Faults (command_of (map string_bytes call.now.words.now)) (F.faults files.old) (F.faults files.new) (K.faults out.old) (K.faults out.new) result }
    ensures output { notice_of (map string_bytes call.now.words.now) ≡ None → Output (command_of (map string_bytes call.now.words.now)) (map string_bytes call.now.words.now) (F.contents files.old) (K.taken out.old) (K.taken out.new) result }
    ensures nothing { result ≢ 0 → result ≢ 5 → K.taken out.new ≡ K.taken out.old }
    ensures line { notice_of (map string_bytes call.now.words.now) ≡ None → Line (command_of (map string_bytes call.now.words.now)) (map string_bytes call.now.words.now) (F.sure files.old) (F.contents files.old) (E.taken err.old) (E.taken err.new) (E.faults err.old) (E.faults err.new) result }
{
    if let Some(notice) = notice(call.words) {
        return print_text(text_of(notice), out, err);
    }
    match command(call.words) {
        TopCall::Run => run_here(rt, call, files, out, err),
        TopCall::Looks => looks_here(call, files, out, err),
        TopCall::Witness => witness_here(call, files, out, err),
        TopCall::Serve => serve_here(rt, call, files, out, err),
        TopCall::Host => host_here(rt, call, hosting, files, err),
        TopCall::Join => join_here(rt, call, files, out, err),
        TopCall::Check => check_here(call, files, out, err),
    }
}

fn main(rt: HostRuntime) -> ExitCode {
    let mut files = OsFiles::new(&rt);
    let mut out = OsSink::new(rt.stdout());
    let mut err = OsSink::new(rt.stderr());
    let words = match words(&rt) {
        Ok(words) => words,
        Err(error) if error.kind() == io::ErrorKind::OutOfMemory => {
            return ExitCode::from(without_memory(&mut err));
        }
        // A word that is no text is none that the program knows.
        Err(_) => Vec::new(rt.alloc()),
    };
    let call = Call {
        alloc: rt.alloc(),
        words: &words,
    };
    let hosting = Hosting {
        runtime: &rt,
        input: rt.stdin(),
        random: RandomState::new(&rt).ok(),
    };
    ExitCode::from(answer(&rt, &call, &hosting, &mut files, &mut out, &mut err))
}
