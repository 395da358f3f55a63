//! A session's loop, from its first read to its End.
ghost use Rattle.std.specs.Prelude.{◌≡◌, ◌≢◌, false, []};
ghost use Rattle.sv_session.specs.Serving.{MayServe, Served, SessionCause};
ghost use Rattle.sv_session.specs.Rounds.{stand, Halts};

use crate::outcome::SessionOut;
use crate::reading::Boxes;
use crate::server::SessionLoop;
use std::alloc::Global;
use std::sync::Wait;
use sv_journal::full_replies_stay;
use sv_link::{End, Gate};
use sv_lock::{Pass, SeqLock};
use sv_sequencer::Sequencer;
use sv_wire::Request;

/// Serves one session: reads its client's frames, has the sequencer answer each request in turn, and writes the replies.
///
/// It reads until the session stops, or the end answers that no more will come. Whatever stops it, it closes the end, and its last step
/// is one End, whose reply is sent to no one. Requests that came together are answered in one write. Before each step but the End it passes
/// the gate, with the number of the request in its session.
pub fn serve_session<R: Wait, E: End, G: Gate>(
    rt: &R,
    alloc: Global,
    lock: &SeqLock<Sequencer>,
    pass: &mut Pass<Sequencer>,
    end: &mut E,
    gate: &G,
) -> SessionOut
    requires may { MayServe lock.now pass.old }
    requires open { (E.told end.old).closed ≡ false }
    ensures served { Served (E.told end.old) pass.old result (E.told end.new) pass.new }
    ensures cause { SessionCause (E.faults end.old) (E.faults end.new) result }
    ensures calm { E.calm end.old → (result ≢ SessionOut.LinkFault) × E.calm end.new }
{
    full_replies_stay();
    let server = SessionLoop {
        rt,
        alloc,
        lock,
        gate,
    };
    let out = server.serve_all(pass, end);
    end.close();
    let Ok(_) = lock.call(rt, pass, Request::End) else {
        unreachable!()
    };
    out
}
