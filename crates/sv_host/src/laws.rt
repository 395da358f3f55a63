//! Laws of the worlds of files. Each is an `ensures` of a function that does nothing.
ghost use Rattle.sv_host.specs.Laws.{FilesAreSerial, FilesGiveAuthority};

use sv_office::new_worlds_are_serial;

/// The world of a file, in which nobody has asked anything, is serial; and where the file says so, its steward's reports alone count. That it stays
/// so, whatever connections send, is `serial` of `Continues`, in each ending of `run_host`.
pub fn worlds_begin_serial()
    ensures authority { FilesGiveAuthority }
    ensures serial { FilesAreSerial }
{
    new_worlds_are_serial();
}
