//! What the loop works with, and does not keep.
use sv_bytes::{Files, Sink};
use sv_ports::Ports;

/// The connections, the files, and where lines are told. Each is borrowed for itself.
#[derive(Drop)]
pub struct Outside<'p, 'f, 'e, P: Ports, L: Files, E: Sink> {
    pub ports: &'p mut P,
    pub files: &'f mut L,
    pub err: &'e mut E,
}
