//! Why a living world's core does not answer.
use thiserror::Error;

/// Why a request is not answered. Nothing changed then.
#[derive(Clone, Copy, Debug, Drop, PartialEq, Eq, Error)]
pub enum StepFault {
    /// The session had its End, or it is not the next one.
    #[error("the session is not open")]
    NotOpen,
    /// The session would be the next one. 1,024 are open, or no number is left.
    #[error("no more sessions may be open")]
    NoRoom,
    #[error("out of memory")]
    Memory,
}
