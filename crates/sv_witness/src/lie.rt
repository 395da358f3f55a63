//! The lie that a client can be let tell.
ghost use Rattle.std.specs.Prelude.{◌≡◌, pos, ◌+ℤ◌, int_lt, map, if◌then◌else◌, IfOk};
ghost use Rattle.sv_wire.specs.declared.message.Request.TheVariants as requests;
ghost use Rattle.sv_witness.specs.Lies.{greatest_int, lied, lied_result, lied_value};

use std::alloc::{AllocError, Global};
use sv_lists::List;
use sv_wire::{Done1, Request};
use sv_world::{Value, copy_value};

/// 1 more, where there is one more.
fn raised(number: i64) -> i64
    ensures { result ≡ (if int_lt number greatest_int then number +ℤ pos 1 else number) }
{
    if number < i64::MAX {
        number + 1
    } else {
        number
    }
}

fn lied_value(alloc: Global, value: &Value) -> Result<Value, AllocError>
    ensures { IfOk result (λ lie. lie ≡ lied_value value.now) }
{
    let mut lie = copy_value(alloc, value)?;
    if let Some(first) = value.as_slice().first() {
        lie.set(0, raised(*first));
    }
    Ok(lie)
}

fn lied_values(alloc: Global, values: &[Value]) -> Result<List<Value>, AllocError>
    ensures { IfOk result (λ lies. lies ≡ map lied_value values.now) }
{
    let mut lies = Vec::with_capacity(alloc, values.len())?;
    for value in values {
        lies.push(lied_value(alloc, value)?)?;
    }
    Ok(List::from_vec(lies))
}

fn lied_result(alloc: Global, found: &Done1) -> Result<Done1, AllocError>
    ensures { IfOk result (λ lie. lie ≡ lied_result found.now) }
{
    Ok(Done1 {
        pos: found.pos,
        values: lied_values(alloc, found.values.as_slice())?,
    })
}

fn lied_results(alloc: Global, results: &[Done1]) -> Result<List<Done1>, AllocError>
    ensures { IfOk result (λ lies. lies ≡ map lied_result results.now) }
{
    let mut lies = Vec::with_capacity(alloc, results.len())?;
    for found in results {
        lies.push(lied_result(alloc, found)?)?;
    }
    Ok(List::from_vec(lies))
}

/// What is heard in place of a request that the liar makes.
pub(crate) fn lie_for(alloc: Global, request: Request) -> Result<Request, AllocError>
    ensures { IfOk result (λ lie. lie ≡ lied request) }
{
    match request {
        Request::Done { results } => lied_done(alloc, results),
        request => Ok(request),
    }
}

fn lied_done(alloc: Global, results: List<Done1>) -> Result<Request, AllocError>
    ensures { IfOk result (λ lie. lie ≡ requests.Done (map lied_result results)) }
{
    let lies = lied_results(alloc, results.as_slice());
    // Trees that are let go at the end of their scope make a long proof; a call that takes them, none.
    drop(results);
    Ok(Request::Done { results: lies? })
}
