//! Where a call's threads run.
use std::alloc::Global;

/// What threads are started with: the runtime that starts them, the memory that they work in, and the gate by which tests hold them.
#[derive(Drop)]
pub struct PlayStage<'a, R, G> {
    pub rt: &'a R,
    pub alloc: Global,
    pub gate: &'a G,
}
