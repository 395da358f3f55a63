//! The programs that meet: one of the top calls each, on a thread of its own.
use std::alloc::{AllocError, Global};
use std::sync::Wait;
use std::thread;
use std::thread::{Scope, Threads};
use sv_door::Door;
use sv_join::run_join;
use sv_link::{OpenGate, ThreadCrew};
use sv_serve::run_serve;
use test_calls::{Printed, held, words};

/// What a program prints.
#[derive(Clone, Copy)]
pub enum Prints {
    /// Just this.
    All(&'static str),

    /// Something that ends so, where the threads decide the rest.
    Last(&'static str),
}

impl Prints {
    fn is(self, bytes: &[u8]) -> bool {
        match self {
            Prints::All(text) => bytes == text.as_bytes(),
            Prints::Last(line) => bytes.ends_with(line.as_bytes()),
        }
    }
}

/// A program's words but for the port, which comes last, and what it prints where it ends well. The file `a` has the scenario.
#[derive(Clone, Copy)]
pub struct Call {
    pub line: &'static str,
    pub prints: Prints,
}

/// A program that is still to be run.
#[derive(Drop)]
pub struct Program<D> {
    pub alloc: Global,
    pub scenario: &'static str,
    pub call: Call,
    pub port: u16,
    pub door: D,
}

/// A program's words, with its port as the last one.
fn words_with(alloc: Global, line: &str, port: u16) -> Result<Vec<String>, AllocError> {
    let mut words = words(alloc, line)?;
    let mut last = String::new(alloc);
    write!(last, "{port}")?;
    words.push(last)?;
    Ok(words)
}

/// Whether a call ended well, with just this output. What it printed is let go.
fn is_well(printed: Printed, prints: Prints) -> bool {
    let is_so = printed.status == 0
        && prints.is(printed.out.bytes())
        && printed.err.bytes().is_empty();
    drop(printed);
    is_so
}

impl<D: Door> Program<D> {
    fn served<R: Threads + Wait + Sync>(&mut self, rt: &R) -> Result<Printed, AllocError> {
        let words = words_with(self.alloc, self.call.line, self.port)?;
        let mut files = held(self.alloc, self.scenario)?;
        let mut printed = Printed::nothing(self.alloc)?;
        let mut crew = ThreadCrew::new(self.alloc);
        printed.status = run_serve(
            rt,
            self.alloc,
            &words,
            &mut files,
            &mut self.door,
            &mut crew,
            &OpenGate,
            &mut printed.out,
            &mut printed.err,
        );
        Ok(printed)
    }

    fn joined(&mut self) -> Result<Printed, AllocError> {
        let words = words_with(self.alloc, self.call.line, self.port)?;
        let mut files = held(self.alloc, self.scenario)?;
        let mut printed = Printed::nothing(self.alloc)?;
        printed.status = run_join(
            self.alloc,
            &words,
            &mut files,
            &mut self.door,
            &mut printed.out,
            &mut printed.err,
        );
        Ok(printed)
    }
}

/// Whether a server ends well.
fn serves_well<D: Door + Drop, R: Threads + Wait + Sync>(rt: &R, server: Program<D>) -> bool {
    let mut server = server;
    match server.served(rt) {
        Ok(printed) => is_well(printed, server.call.prints),
        Err(_) => false,
    }
}

/// Whether a client ends well.
fn joins_well<D: Door + Drop>(client: Program<D>) -> bool {
    let mut client = client;
    match client.joined() {
        Ok(printed) => is_well(printed, client.call.prints),
        Err(_) => false,
    }
}

/// Whether a server and its clients end well, each client on a thread of its own.
pub fn all_end_well<R: Threads + Wait + Sync, D: Door + Send + Drop>(
    rt: &R,
    server: Program<D>,
    clients: Vec<Program<D>>,
) -> bool {
    thread::scope(thread::scope_env(), rt, move |scope| -> bool {
        meet_in(scope, rt, server, clients)
    })
}

fn meet_in<'s, E: 's, D: Door + Send + Drop + 's, R: Threads + Wait + Sync>(
    scope: &'s Scope<'s, E>,
    rt: &'s R,
    server: Program<D>,
    clients: Vec<Program<D>>,
) -> bool {
    let Ok(mut handles) = Vec::with_capacity(*clients.allocator(), clients.len()) else {
        return false;
    };
    for client in clients {
        let Ok(handle) = scope.spawn(move || joins_well(client)) else {
            return false;
        };
        if handles.push(handle).is_err() {
            return false;
        }
    }
    let mut is_well = serves_well(rt, server);
    for handle in handles {
        is_well = handle.join(rt) && is_well;
    }
    is_well
}
