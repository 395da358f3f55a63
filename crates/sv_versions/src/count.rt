//! Counting the first versions of an object.
ghost use Rattle.std.specs.Prelude.{◌≤◌, length, MatchBool};
ghost use Rattle.sv_versions.specs.Histories.{AscendsFrom, IsCountUpTo, EndsAt, EndsApart};

use crate::history::Version;

/// How many versions stand at or below a position: these are the first ones.
pub fn count_versions(versions: &[Version], pos: u32) -> usize
    requires { AscendsFrom 0 versions.now }
    ensures { IsCountUpTo pos versions.now result }
{
    let mut count = versions.len();
    while count > 0 && versions[count - 1].pos > pos {
        count -= 1;
    }
    count
}

/// Whether the last of a number of first versions stands at a position.
pub fn ends_at(versions: &[Version], count: usize, pos: u32) -> bool
    requires { count ≤ length versions.now }
    ensures { MatchBool result (EndsAt pos versions.now count) (EndsApart pos versions.now count) }
{
    count > 0 && versions[count - 1].pos == pos
}
