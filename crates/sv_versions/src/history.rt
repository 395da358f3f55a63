//! The versions of one object.
ghost use Rattle.std.specs.Prelude.{◌≡◌, ℕ, [], ◌++◌, ◌∷◌, ◌+◌, ◌-◌, ◌<◌, ◌≤◌, set, remove, length, option_copied, IfOk, OnOk, OnErr};
ghost use Rattle.sv_versions.specs.Held.{read_below, latest, put_in, pruned, count_up_to};

use crate::count::{count_versions, ends_at};
use std::alloc::{AllocError, Global};
use std::marker::Model;
use std::mem;
use sv_world::{Value, copy_value};

/// A value at a position.
#[derive(Debug, Drop)]
pub struct Version {
    pub pos: u32,
    pub value: Value,
}

/// The versions of one object, in the order of their positions.
#[derive(Debug, Drop)]
pub struct History {
    versions: Vec<Version>,
}

impl Model for History {
    ghost use Rattle.std.specs.Prelude.{List};
    ghost use Rattle.sv_versions.specs.declared.history.Version.{Version};

    ghost Value = { List Version };

    ghost use Rattle.sv_versions.specs.Histories.{AscendsFrom};

    ghost view = { λ h. h.versions.items };

    ghost invariant = { λ h. AscendsFrom 0 h.versions.items };
}

impl History {
    ghost use Rattle.sv_versions.specs.Histories.{as_held, tagged, row_restored};

    pub fn new(alloc: Global) -> History
        ensures { result ≡ [] }
    {
        History {
            versions: Vec::new(alloc),
        }
    }

    pub fn len(&self) -> usize
        ensures { result ≡ length self.now }
    {
        self.versions.len()
    }

    pub fn below(&self, pos: u32) -> Option<&Value>
        ensures { (x : ℕ) → option_copied result ≡ read_below (tagged x self.now) x pos }
    {
        if pos == 0 {
            return None;
        }
        let count = count_versions(&self.versions, pos - 1);
        if count == 0 {
            return None;
        }
        Some(&self.versions[count - 1].value)
    }

    pub fn latest(&self) -> Option<&Value>
        ensures { (x : ℕ) → option_copied result ≡ latest (tagged x self.now) x }
    {
        let count = self.versions.len();
        if count == 0 {
            return None;
        }
        Some(&self.versions[count - 1].value)
    }

    /// How many versions stand at or below a commit.
    pub fn old_versions(&self, commit: u32) -> usize
        ensures { (x : ℕ) → result ≡ count_up_to (tagged x self.now) x commit }
    {
        count_versions(&self.versions, commit)
    }

    /// Holds a value at a position, and returns the one that stood there.
    pub fn put(&mut self, pos: u32, value: Value) -> Result<Option<Value>, AllocError>
        ensures ok { OnOk result ((x : ℕ) → tagged x self.new ≡ put_in (tagged x self.old) (as_held x (record { pos = pos; value = value }))) }
        ensures undone { IfOk result (λ was. row_restored pos was self.new ≡ self.old) }
        ensures err { OnErr result (self.new ≡ self.old) }
        ensures longer { length self.new ≤ length self.old + 1 }
    {
        let count = count_versions(&self.versions, pos);
        let version = Version { pos, value };
        if ends_at(&self.versions, count, pos) {
            let was = mem::replace(&mut self.versions[count - 1], version);
            return Ok(Some(was.value));
        }
        self.versions.insert(count, version)?;
        Ok(None)
    }

    /// Takes a put at a position back: the value that stood there before, if any, stands there again.
    pub fn restore(&mut self, pos: u32, was: Option<Value>)
        ensures kept { self.new ≡ row_restored pos was self.old }
        ensures shorter { length self.new ≤ length self.old }
    {
        let count = count_versions(&self.versions, pos);
        if !ends_at(&self.versions, count, pos) {
            return;
        }
        match was {
            Some(value) => put_at(&mut self.versions, count - 1, Version { pos, value }),
            None => remove_at(&mut self.versions, count - 1),
        }
    }

    pub fn prune(&mut self, commit: u32)
        ensures kept { (x : ℕ) → tagged x self.new ≡ pruned commit (tagged x self.old) }
        ensures few { (x : ℕ) → count_up_to (tagged x self.new) x commit ≤ 1 }
        ensures shorter { length self.new ≤ length self.old }
    {
        let count = count_versions(&self.versions, commit);
        if count > 1 {
            let newest = self.versions[count - 1].pos;
            self.versions.retain(|version| version.pos >= newest);
        }
    }

    pub fn copy(&self, alloc: Global) -> Result<History, AllocError>
        ensures { IfOk result (λ copy. copy ≡ self.now) }
    {
        let mut versions = Vec::with_capacity(alloc, self.versions.len())?;
        for version in &self.versions {
            let value = copy_value(alloc, &version.value)?;
            versions.push(Version {
                pos: version.pos,
                value,
            })?;
        }
        Ok(History { versions })
    }
}

fn put_at(versions: &mut Vec<Version>, at: usize, version: Version)
    requires { at < length versions.old.items }
    ensures { versions.new.items ≡ set versions.old.items at version }
{
    versions[at] = version;
}

fn remove_at(versions: &mut Vec<Version>, at: usize)
    requires { at < length versions.old.items }
    ensures { versions.new.items ≡ remove versions.old.items at }
{
    let _ = versions.remove(at);
}
