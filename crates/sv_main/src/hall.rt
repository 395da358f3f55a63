//! Folders and doors of the system, for the server of a living world.
ghost use Rattle.std.specs.Prelude.{◌≡◌, ◌↔◌, IsTrue};
ghost use Rattle.std.specs.IoError.{error_kind};
ghost use Rattle.std.specs.declared.io.ErrorKind.TheVariants.{AddrInUse};
ghost use Rattle.sv_main.specs.Halls.{fault_of};

use http_server::Log;
use std::alloc::Global;
use std::io::{self, ErrorKind};
use std::net::{Net, SocketAddr};
use std::rt::Stdin;
use sv_disk::{DiskFault, DiskFolder, SyncMode};
use sv_host::{DoorFault, Doors, FolderFault, Folders};
use sv_mio::MioPorts;

fn mode_of(syncs: bool) -> SyncMode
    ensures { (result ≡ SyncMode.Waits) ↔ IsTrue syncs }
{
    if syncs {
        SyncMode::Waits
    } else {
        SyncMode::Never
    }
}

fn fault_of(fault: DiskFault) -> FolderFault
    ensures { result ≡ fault_of fault }
{
    match fault {
        DiskFault::Busy => FolderFault::Busy,
        DiskFault::Failed => FolderFault::Failed,
        DiskFault::Memory => FolderFault::Memory,
    }
}

/// Why no door is opened. Another program has the address just where the system says so.
fn door_fault(error: &io::Error) -> DoorFault
    ensures { (result ≡ DoorFault.Busy) ↔ (error_kind error.now ≡ AddrInUse) }
{
    if error.kind() == ErrorKind::AddrInUse {
        DoorFault::Busy
    } else {
        DoorFault::Failed
    }
}

/// The folders of the system. Its contracts don't tell what stands in one.
#[derive(Drop)]
pub struct OsFolders<'r> {
    pub rt: &'r HostRuntime,
}

impl<'r> Folders for OsFolders<'r> {
    type F = DiskFolder<'r>;

    ghost opens = { λ _ _ _. Unit {0} };

    ghost refuses = { λ _ _ _. Unit {0} };

    fn open(&mut self, name: &str, syncs: bool) -> Result<DiskFolder<'r>, FolderFault> {
        match DiskFolder::open(self.rt, name, mode_of(syncs)) {
            Ok(folder) => Ok(folder),
            Err(fault) => Err(fault_of(fault)),
        }
    }
}

/// Doors over TCP.
#[derive(Drop)]
pub struct OsDoors<'r, R: Net> {
    pub rt: &'r R,
    pub alloc: Global,
    /// The standard input.
    pub input: Stdin,
    /// The connections of the door that was closed last, for contracts alone.
    pub closed: Log<MioPorts<Stdin>, ()>,
}

impl<'r, R: Net> Doors for OsDoors<'r, R> {
    ghost use Rattle.sv_main.specs.Closed.{told_by};

    type P = MioPorts<Stdin>;

    ghost told = { λ doors. told_by doors.closed.items };

    ghost refuses = { λ _ _ _. Unit {0} };

    fn open(&mut self, address: &str, input: bool) -> Result<MioPorts<Stdin>, DoorFault> {
        let Ok(address) = address.parse::<SocketAddr>() else {
            return Err(DoorFault::Failed);
        };
        let input = if input { Some(self.input) } else { None };
        match MioPorts::open(self.rt, self.alloc, address, input) {
            Ok(ports) => Ok(ports),
            Err(error) => Err(door_fault(&error)),
        }
    }

    fn close(&mut self, ports: MioPorts<Stdin>) {
        self.closed = Log::new().and(&ports, &());
    }

    fn address(&self, ports: &MioPorts<Stdin>, out: &mut String) -> bool {
        match ports.address() {
            Ok(address) => write!(out, "{address}").is_ok(),
            Err(_) => false,
        }
    }
}
