//! A small game over the libraries: two players dig a mine in turns, and who takes the last nugget wins.
//!
//! The server runs here, with a thread for each session, over TCP on this machine. Each player is a client on a thread of its own. No script
//! drives it: it looks at the world, decides, and acts. `docs/EMBEDDING.md` goes through this program line by line.
#![tactic(auto)]

mod diary;
mod fault;
mod game;
mod hosting;

use crate::fault::Fault;
use crate::hosting::{Doors, meet};
use std::alloc::Global;
use std::net::{Net as Sockets, TcpListener, TcpStream};
use std::process::ExitCode;
use std::rt::Clock;
use std::sync::Wait;
use std::thread::Threads;
use sv_door::TcpDoor;

/// A port at which nobody listens.
fn free_port<R: Sockets<Listener = TcpListener, Stream = TcpStream>>(rt: &R) -> Result<u16, Fault> {
    let Ok(listener) = TcpListener::bind(rt, "127.0.0.1:0") else {
        return Err(Fault::Port);
    };
    match listener.local_addr() {
        Ok(address) => Ok(address.port()),
        Err(_) => Err(Fault::Port),
    }
}

/// Plays the game over TCP, and gives all that is to be printed.
fn played<R>(rt: &R, alloc: Global) -> Result<String, Fault>
where
    R: Sockets<Listener = TcpListener, Stream = TcpStream> + Clock + Threads + Wait + Sync,
{
    let port = free_port(rt)?;
    let doors = Doors {
        hall: TcpDoor::new(alloc, rt),
        ann: TcpDoor::new(alloc, rt),
        bob: TcpDoor::new(alloc, rt),
    };
    meet(rt, alloc, port, doors)
}

fn main(rt: HostRuntime) -> ExitCode {
    match played(&rt, rt.alloc()) {
        Ok(text) => match print!(&rt; "{text}") {
            Ok(()) => ExitCode::SUCCESS,
            Err(_) => ExitCode::FAILURE,
        },
        Err(fault) => {
            let _ = eprintln!(&rt; "{fault}");
            ExitCode::FAILURE
        }
    }
}
