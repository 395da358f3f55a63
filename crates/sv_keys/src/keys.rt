//! Who may join: the digests of keys.
ghost use Rattle.std.specs.Prelude.{◌≡◌, ◌≢◌, List, ℕ, IfOk, IfErr, Option, Some, Err};
ghost use Rattle.sv_keys.specs.Keeping.{has_key, has_digest, fault_in, AreHeld, IsAllOf, IsRenewed, WasTold, WhyWrong};
ghost use Rattle.sv_keys.specs.KeyLines.{AreKeys, IsWrongAt};
ghost use Rattle.sv_keys.specs.declared.fault.KeysFault.{KeysFault};
ghost use Rattle.sv_keys.specs.declared.fault.KeysFault.TheVariants as faults;

use crate::fault::{KeysFault, tell};
use crate::line::KeyRow;
use crate::rows::rows_of;
use std::alloc::Global;
use std::marker::Model;
use sv_bytes::{FileFault, Files, Sink, read_all};
use sv_world::ClientId;

/// How many bytes a file of keys may have.
const MOST_KEY_BYTES: usize = 16_777_216;

/// The keys of a file.
///
/// Contracts see what the file had when it was read last, and the keys that it had when it was right last.
#[derive(Drop)]
pub struct Keys {
    alloc: Global,
    file: String,
    bytes: Vec<u8>,
    rows: Vec<KeyRow>,
}

impl Model for Keys {
    ghost use Rattle.std.specs.Prelude.{string_bytes};
    ghost use Rattle.sv_keys.specs.Keeping.{KeysView};

    ghost Value = { KeysView };

    ghost view = { λ k. record { file = string_bytes k.file; bytes = k.bytes.items; rows = k.rows.items } };
}

fn read_keys<L: Files>(alloc: Global, files: &mut L, name: &str) -> Result<Vec<u8>, KeysFault>
    ensures all { IfOk result (λ bytes. IsAllOf (L.contents files.old name.now) bytes.items) }
    ensures err { IfErr result (λ fault. (n : ℕ) → fault ≢ faults.Line n) }
    ensures same { (n : List ℕ) → L.contents files.new n ≡ L.contents files.old n }
{
    let bytes = match read_all(alloc, files, name, MOST_KEY_BYTES + 1) {
        Ok(bytes) => bytes,
        Err(FileFault::Failed) => return Err(KeysFault::File),
        Err(FileFault::Memory) => return Err(KeysFault::Memory),
    };
    if bytes.as_slice().len() > MOST_KEY_BYTES {
        return Err(KeysFault::File);
    }
    Ok(bytes)
}

impl Keys {
    /// The keys of this file.
    pub fn open<L: Files>(alloc: Global, files: &mut L, name: &str) -> Result<Keys, KeysFault>
        ensures file { IfOk result (λ keys. keys.file ≡ name.now) }
        ensures all { IfOk result (λ keys. IsAllOf (L.contents files.old name.now) keys.bytes) }
        ensures keys { IfOk result (λ keys. AreKeys keys.bytes keys.rows) }
        ensures held { IfOk result (AreHeld (L.contents files.old) name.now) }
        ensures same { (n : List ℕ) → L.contents files.new n ≡ L.contents files.old n }
        ensures wrong { (n : ℕ) → result ≡ Err (faults.Line n) → (all : List ℕ) → L.contents files.old name.now ≡ Some all → IsWrongAt all n }
    {
        let bytes = read_keys(alloc, files, name)?;
        let rows = rows_of(alloc, &bytes)?;
        Ok(Keys {
            alloc,
            file: String::from_str(alloc, name)?,
            bytes,
            rows,
        })
    }

    /// Whether a client may join by the key of this digest.
    pub fn has(&self, client: ClientId, digest: &[u8; 32]) -> bool
        ensures { result ≡ has_key self.now client.0 digest.now }
    {
        self.rows
            .iter()
            .any(|row| row.client == client && row.digest == *digest)
    }

    // Reads the file again, and takes its keys where it has changed.
    fn renew<L: Files>(&mut self, files: &mut L) -> Result<(), KeysFault>
        ensures renewed { IsRenewed (L.contents files.old self.old.file) self.old self.new (fault_in result) }
        ensures same { (n : List ℕ) → L.contents files.new n ≡ L.contents files.old n }
    {
        let bytes = read_keys(self.alloc, files, self.file.as_str())?;
        if bytes.as_slice() == self.bytes.as_slice() {
            return Ok(());
        }
        match rows_of(self.alloc, &bytes) {
            Ok(rows) => self.rows = rows,
            Err(KeysFault::Line(number)) => {
                self.bytes = bytes;
                return Err(KeysFault::Line(number));
            }
            Err(fault) => return Err(fault),
        }
        self.bytes = bytes;
        Ok(())
    }

    fn has_digest(&self, digest: &[u8; 32]) -> bool
        ensures { result ≡ has_digest self.now digest.now }
    {
        self.rows.iter().any(|row| row.digest == *digest)
    }

    /// Looks at the file, and answers whether it has a key of this digest. Where it is wrong now, that is told, and the last good one holds.
    pub fn look<L: Files, E: Sink>(&mut self, files: &mut L, err: &mut E, digest: &[u8; 32]) -> bool
        ensures answer { result ≡ has_digest self.new digest.now }
        ensures held { (name : List ℕ) → AreHeld (L.contents files.old) name self.old → AreHeld (L.contents files.old) name self.new }
        ensures same { (n : List ℕ) → L.contents files.new n ≡ L.contents files.old n }
        ensures renewed { (fault : Option KeysFault)
            × IsRenewed (L.contents files.old self.old.file) self.old self.new fault
            × WasTold (E.taken err.old) (E.taken err.new) (E.faults err.old) (E.faults err.new) self.old.file fault }
    {
        if let Err(fault) = self.renew(files) {
            tell(fault, self.file.as_str(), err);
        }
        self.has_digest(digest)
    }
}
