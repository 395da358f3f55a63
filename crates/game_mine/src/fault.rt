//! What can go wrong.
use std::alloc::{AllocError, AllocFailed};
use sv_pilot::Trouble;
use thiserror::Error;

#[derive(Clone, Copy, Debug, Drop, Error)]
pub enum Fault {
    #[error("a player: {0}")]
    Player(Trouble),
    #[error("the server failed")]
    Server,
    #[error("a thread could not be started")]
    Start,
    #[error("no port is free")]
    Port,
    #[error("out of memory")]
    Memory,
}

impl From<Trouble> for Fault {
    fn from(trouble: Trouble) -> Fault {
        Fault::Player(trouble)
    }
}

impl From<AllocError> for Fault {
    fn from(_e: AllocError) -> Fault {
        Fault::Memory
    }
}

impl<T: Drop> From<AllocFailed<T>> for Fault {
    fn from(_e: AllocFailed<T>) -> Fault {
        Fault::Memory
    }
}
