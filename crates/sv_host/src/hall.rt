//! What opens folders and doors.
ghost use Rattle.std.specs.Prelude.{◌≡◌, List, ℕ, IfErr, IfOk, OnErr};
ghost use Rattle.sv_log.specs.Rests.{IsAtRest};
ghost use Rattle.sv_ports.specs.Traffic.{Traffic, nothing_told};
ghost use Rattle.sv_host.specs.declared.hall.DoorFault.{DoorFault};
ghost use Rattle.sv_host.specs.declared.hall.FolderFault.{FolderFault};

use sv_log::Folder;
use sv_ports::Ports;

/// Why a folder is not opened.
#[derive(Clone, Copy, Debug, Drop, PartialEq, Eq)]
pub enum FolderFault {
    /// Another process has it.
    Busy,
    Failed,
    Memory,
}

/// Opens folders, each of them locked.
pub trait Folders {
    type F: Folder + Drop;

    // The folder of this name is opened as this one.
    ghost opens: { Self → List ℕ → Self.F → Type 0 };

    // Why the folder of this name is not opened.
    ghost refuses: { Self → List ℕ → FolderFault → Type 0 };

    /// Opens a folder. A sync of it waits for the disk, or does nothing. All that stands in it is on the disk then, if it is honest.
    fn open(&mut self, name: &str, syncs: bool) -> Result<Self::F, FolderFault>
        ensures opened { IfOk result (λ folder. opens self.old name.now folder) }
        ensures rest { IfOk result (λ folder. Self.F.is_honest folder → IsAtRest (Self.F.disk folder)) }
        ensures refused { IfErr result (refuses self.old name.now) };
}

/// Why a door is not opened.
#[derive(Clone, Copy, Debug, Drop, PartialEq, Eq)]
pub enum DoorFault {
    /// Another program has the address.
    Busy,
    Failed,
}

/// Opens doors, and closes them.
pub trait Doors {
    type P: Ports + Drop;

    // What the connections of all its doors told, where no door is open.
    ghost told: { Self → Traffic };

    // Why no door is opened at this address.
    ghost refuses: { Self → List ℕ → DoorFault → Type 0 };

    /// Opens a door at an address, and looks at the input where it is wanted.
    fn open(&mut self, address: &str, input: bool) -> Result<Self::P, DoorFault>
        ensures ok { told self.old ≡ nothing_told → IfOk result (λ ports. Self.P.told ports ≡ nothing_told) }
        ensures err { OnErr result (told self.new ≡ told self.old) }
        ensures refused { IfErr result (refuses self.old address.now) };

    /// Closes a door.
    fn close(&mut self, ports: Self::P)
        ensures { told self.new ≡ Self.P.told ports };

    /// The address at which a door is open, as text. It may have another port than was asked for.
    fn address(&self, ports: &Self::P, out: &mut String) -> bool;
}
