//! What a run leaves.
ghost use Rattle.std.specs.Prelude.{◌≡◌, length, IfOk};
ghost use Rattle.sv_journal.specs.History.{commit_of, committed_of};
ghost use Rattle.sv_sequencer.specs.Step.{history};

use crate::server::Server;
use law_system::Played;
use std::alloc::{AllocError, Global};
use sv_client::Trace;
use sv_lists::List;
use sv_sequencer::Sequencer;
use sv_world::{ObjectId, Shape, Value, copy_value};

/// What is left of a run over worlds of this shape: its sequencer's journal and committed values, and what each client did.
pub fn played_of(
    alloc: Global,
    shape: Shape,
    sequencer: Sequencer,
    traces: List<Trace>,
) -> Result<Played, AllocError>
    requires shape { shape ≡ sequencer.rules.world.shape }
    requires values { length sequencer.rules.world.values ≡ shape.objects }
    ensures shape { IfOk result (λ played. played.shape ≡ shape) }
    ensures entries { IfOk result (λ played. played.journal.entries ≡ sequencer.journal.entries) }
    ensures traces { IfOk result (λ played. played.traces ≡ traces) }
    ensures commit { IfOk result (λ played. played.commit ≡ commit_of (history sequencer)) }
    ensures committed { IfOk result (λ played. played.committed ≡ committed_of sequencer.rules.world.values (history sequencer)) }
{
    let committed = committed_values(alloc, &sequencer, shape.objects)?;
    let commit = sequencer.commit();
    Ok(Played {
        shape,
        journal: sequencer.into_journal(),
        traces,
        commit,
        committed,
    })
}

/// The value of each object at a server's commit.
pub fn committed_values<S: Server>(
    alloc: Global,
    server: &S,
    objects: u16,
) -> Result<List<Value>, AllocError>
    requires objects { objects ≡ (S.view server.now).rules.world.shape.objects }
    requires values { length (S.world server.now) ≡ objects }
    ensures { IfOk result (λ values. values ≡ S.world server.now) }
{
    let mut values = List::new(alloc);
    for object in 0..objects {
        values.push(copy_value(alloc, server.committed(ObjectId(object)))?)?;
    }
    Ok(values)
}
