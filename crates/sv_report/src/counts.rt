//! How many actions the clients made.
ghost use Rattle.std.specs.Prelude.{◌≡◌, ◌≤◌, All, length, reverse};
ghost use Rattle.sv_client.specs.declared.trace.Trace.{Trace};
ghost use Rattle.sv_world.specs.Limits.{most_clients};
ghost use Rattle.sv_client.specs.Traces.{makes};
ghost use Rattle.sv_client.specs.Proper.{most_made};
ghost use Rattle.sv_report.specs.Summary.{made_count};

use sv_client::{Trace, is_make};

/// How many actions a client made.
pub fn made_by(trace: &Trace) -> usize
    ensures { result ≡ makes (reverse trace.now.events) }
{
    let mut count = 0;
    for event in trace.events.as_slice() {
        if is_make(event) {
            count += 1;
        }
    }
    count
}

/// How many actions all clients made.
pub(crate) fn made_in(traces: &[Trace]) -> usize
    requires few { length traces.now ≤ most_clients }
    requires small { All (λ (L : Trace). makes (reverse L.events) ≤ most_made) traces.now }
    ensures { result ≡ made_count traces.now }
{
    let mut count = 0;
    for trace in traces {
        count += made_by(trace);
    }
    count
}
