//! What a witnessing server keeps beside its core.
use crate::report::Dispute;
use crate::reports::Reports;

/// What clients reported of positions, and where two of them differ.
#[derive(Drop)]
pub struct Testimony {
    pub reports: Reports,
    pub disputes: Vec<Dispute>,
}

/// A session that asks, and its client.
#[derive(Clone, Copy, Drop)]
pub struct Asker {
    pub client: u16,
    pub session: u16,
}
