//! The journal, and the accepted actions by their positions.
ghost use Rattle.std.specs.Prelude.{◌≡◌, ◌-◌, ◌<◌, ◌≤◌, [], ◌∷◌, ◌++◌, length, reverse, slice_get, Some, OnOk, OnErr};
ghost use Rattle.sv_world.specs.Control.{action_at};
ghost use Rattle.sv_journal.specs.History.{accepted, actions_of, authored_at};

use crate::Entry;
use crate::rows::{Acceptance, make_client_rows, make_count_rows, note};
use std::alloc::{AllocError, Global};
use std::marker::Model;
use sv_wire::Request;
use sv_world::{Action, ClientId};

/// Entries in order. Contracts see their list, and for how many more entries there is room.
///
/// Beside each other stand rows by which an accepted action is found: the client of each session, the number of each client's outcomes,
/// and the entries whose actions were accepted. Entries take no memory but that which `reserve` took for them.
#[derive(Debug, Drop)]
pub struct Journal {
    alloc: Global,
    entries: Vec<Entry>,
    spare: usize,
    clients: Vec<Option<ClientId>>,
    outcomes: Vec<u32>,
    accepted: Vec<Acceptance>,
}

impl Model for Journal {
    ghost use Rattle.std.specs.Coded.{codes};
    ghost use Rattle.sv_journal.specs.View.{JournalView};
    ghost use Rattle.sv_journal.specs.contracts.entry.Entry as entry;

    ghost Value = { JournalView };

    ghost coded = { Prim.hlevel (codes, entry.the_row.coded) };

    ghost use Rattle.sv_journal.specs.Invariant.{model_of, IsJournal};

    ghost view = { model_of };

    ghost invariant = { IsJournal };
}

impl Journal {
    /// The empty journal, which takes no memory.
    pub fn new(alloc: Global) -> Journal
        ensures { result ≡ record { entries = []; spare = 0 } }
    {
        Journal {
            alloc,
            entries: Vec::new(alloc),
            spare: 0,
            clients: Vec::new(alloc),
            outcomes: Vec::new(alloc),
            accepted: Vec::new(alloc),
        }
    }

    /// How many entries there are.
    pub fn len(&self) -> usize
        ensures { result ≡ length self.now.entries }
    {
        self.entries.len()
    }

    /// For how many more entries there is room.
    pub fn spare(&self) -> usize
        ensures { result ≡ self.now.spare }
    {
        self.spare
    }

    /// An entry by its place, from 0.
    pub fn entry(&self, at: usize) -> &Entry
        requires { at < length self.now.entries }
        ensures { slice_get self.now.entries at ≡ Some result.now }
    {
        &self.entries[at]
    }

    /// The entries in order.
    pub fn entries(&self) -> &[Entry]
        ensures { result.now ≡ self.now.entries }
    {
        self.entries.as_slice()
    }

    /// How many actions were accepted.
    pub fn accepted_count(&self) -> usize
        ensures { result ≡ length (accepted (reverse self.now.entries)) }
    {
        self.accepted.len()
    }

    /// The accepted action at a position, from 1.
    pub fn accepted(&self, pos: u32) -> &Action
        requires first { 1 ≤ pos }
        requires last { pos ≤ length (accepted (reverse self.now.entries)) }
        ensures { result.now ≡ action_at (actions_of (reverse self.now.entries)) pos }
    {
        let (_, action) = self.submitted(pos);
        action
    }

    /// The client whose action was accepted at a position, from 1.
    pub fn author(&self, pos: u32) -> ClientId
        requires first { 1 ≤ pos }
        requires last { pos ≤ length (accepted (reverse self.now.entries)) }
        ensures { result.0 ≡ (authored_at (accepted (reverse self.now.entries)) pos).client }
    {
        self.accepted[pos as usize - 1].client
    }

    /// The author's number for the accepted action at a position, from 1.
    pub fn author_seq(&self, pos: u32) -> u32
        requires first { 1 ≤ pos }
        requires last { pos ≤ length (accepted (reverse self.now.entries)) }
        ensures { result ≡ (authored_at (accepted (reverse self.now.entries)) pos).seq }
    {
        let (seq, _) = self.submitted(pos);
        seq
    }

    /// The author's number and the action at a position.
    fn submitted(&self, pos: u32) -> (u32, &Action)
        requires first { 1 ≤ pos }
        requires last { pos ≤ length (accepted (reverse self.now.entries)) }
        ensures seq { result.0 ≡ (authored_at (accepted (reverse self.now.entries)) pos).seq }
        ensures action { result.1.now ≡ (authored_at (accepted (reverse self.now.entries)) pos).action }
    {
        let place = self.accepted[pos as usize - 1].place;
        let entry = &self.entries[place];
        match &entry.request {
            Request::Submit { seq, action } => (*seq, action),
            _ => unreachable!(),
        }
    }

    /// Makes room for more entries.
    pub fn reserve(&mut self, more: usize) -> Result<(), AllocError>
        ensures entries { self.new.entries ≡ self.old.entries }
        ensures kept { self.old.spare ≤ self.new.spare }
        ensures ok { OnOk result (more ≤ self.new.spare) }
        ensures err { OnErr result (self.new ≡ self.old) }
    {
        if more <= self.spare {
            return Ok(());
        }
        self.entries.reserve(more)?;
        self.accepted.reserve(more)?;
        make_client_rows(&mut self.clients)?;
        make_count_rows(&mut self.outcomes)?;
        self.spare = more;
        Ok(())
    }

    /// Appends an entry. It takes no memory.
    pub fn push(&mut self, entry: Entry)
        requires { 0 < self.old.spare }
        ensures { self.new ≡ record { entries = self.old.entries ++ entry ∷ []; spare = self.old.spare - 1 } }
    {
        let place = self.entries.len();
        note(
            &mut self.clients,
            &mut self.outcomes,
            &mut self.accepted,
            place,
            &entry,
        );
        self.spare -= 1;
        if self.entries.push(entry).is_err() {
            unreachable!();
        }
    }
}
