//! The pending actions of a client.
ghost use Rattle.std.specs.Prelude.{◌≡◌, ◌-◌, ◌<◌, ◌≤◌, [], ◌∷◌, ◌++◌, drop, length, option_map, slice_get, IfOk, OnOk, OnErr};
ghost use Rattle.sv_world.specs.Limits.{most_pending};
ghost use Rattle.sv_world.specs.Faults.{IsGoodAction};
ghost use Rattle.sv_pending.specs.Pending.{kept_of, redone, overlay_of};
ghost use Rattle.sv_pending.specs.Seen.{overlay_seen, item_seen};

use crate::made::{KeptValues, Made, copy_kept, copy_made};
use crate::redo::{kept_in, overlay_in, results_in};
use crate::{Overlay, PendingItem};
use std::alloc::{AllocError, Global};
use std::marker::Model;
use sv_versions::Versions;
use sv_world::{Action, ObjectId, Shape};

/// The actions that a client made and that are not settled yet, at most 8, each with the result that the client expects of it.
///
/// Contracts see the shape and the list of the actions, in the order in which they were made.
#[derive(Debug, Drop)]
pub struct Pending {
    alloc: Global,
    shape: Shape,
    made: Vec<Made>,
    /// One for each action, in order.
    kept: Vec<KeptValues>,
}

impl Model for Pending {
    ghost use Rattle.sv_pending.specs.Made.{PendingList};
    ghost use Rattle.sv_world.specs.contracts.action.Stmt as statements;
    ghost use Rattle.std.specs.Coded.{codes};

    ghost Value = { PendingList };

    ghost coded = { Prim.hlevel (codes, statements.the_row.coded) };

    ghost use Rattle.std.specs.Prelude.{◌≡◌, ◌≤◌, length, All};
    ghost use Rattle.sv_world.specs.Limits.{most_pending};
    ghost use Rattle.sv_pending.specs.Made.{paired, AreWhole, ReadsWithin};

    ghost view = { λ p. record { shape = p.shape; items = paired p.made.items p.kept.items } };

    ghost invariant = { λ p. (length p.kept.items ≡ length p.made.items) × (length p.made.items ≤ most_pending) × AreWhole p.made.items p.kept.items × All (λ m. ReadsWithin p.shape.objects m.action) p.made.items };
}

impl Pending {
    pub fn new(alloc: Global, shape: Shape) -> Pending
        ensures { result ≡ record { shape = shape; items = [] } }
    {
        Pending {
            alloc,
            shape,
            made: Vec::new(alloc),
            kept: Vec::new(alloc),
        }
    }

    pub fn len(&self) -> usize
        ensures exact { result ≡ length self.now.items }
        ensures few { result ≤ most_pending }
    {
        self.made.len()
    }

    /// Puts an action behind the others, with the result that it has on the views over them.
    pub fn add(&mut self, seq: u32, action: Action, versions: &Versions) -> Result<(), AllocError>
        requires few { length self.old.items < most_pending }
        requires good { IsGoodAction self.old.shape action }
        requires shape { versions.now.shape ≡ self.old.shape }
        ensures ok { OnOk result (self.new ≡ record self.old { items = self.old.items ++ record { seq = seq; action = action; kept = kept_of versions.now.held self.old.items action } ∷ [] }) }
        ensures err { OnErr result (self.new ≡ self.old) }
    {
        let kept = kept_in(self.alloc, &self.made, &self.kept, versions, &action)?;
        self.made.push(Made { seq, action })?;
        if let Err(fault) = self.kept.push(kept) {
            let _ = self.made.pop();
            return Err(fault.into());
        }
        Ok(())
    }

    /// The action that was made first, if there is one.
    pub fn front(&self) -> Option<PendingItem<'_>>
        ensures { option_map item_seen result ≡ slice_get self.now.items 0 }
    {
        let made = self.made.first()?;
        let kept = self.kept.first()?;
        Some(item_of(made, kept))
    }

    /// The action that was made last, if there is one.
    pub fn back(&self) -> Option<PendingItem<'_>>
        ensures { option_map item_seen result ≡ slice_get self.now.items (length self.now.items - 1) }
    {
        let made = self.made.last()?;
        let kept = self.kept.last()?;
        Some(item_of(made, kept))
    }

    /// Takes the action that was made first out. The others keep their results.
    pub fn settle(&mut self)
        requires { 0 < length self.old.items }
        ensures { self.new ≡ record self.old { items = drop 1 self.old.items } }
    {
        let _ = self.made.remove(0);
        let _ = self.kept.remove(0);
    }

    /// Computes all results again, in order, each on the views over the actions before it.
    pub fn reconcile(&mut self, versions: &Versions) -> Result<(), AllocError>
        requires { versions.now.shape ≡ self.old.shape }
        ensures ok { OnOk result (self.new ≡ record self.old { items = redone versions.now.held self.old.items }) }
        ensures err { OnErr result (self.new ≡ self.old) }
    {
        self.kept = results_in(self.alloc, &self.made, versions)?;
        Ok(())
    }

    /// Takes the action that was made first out, if there is one, and computes the results of the others again.
    pub fn settle_and_reconcile(&mut self, versions: &Versions) -> Result<(), AllocError>
        requires { versions.now.shape ≡ self.old.shape }
        ensures ok { OnOk result (self.new ≡ record self.old { items = redone versions.now.held (drop 1 self.old.items) }) }
        ensures err { OnErr result (self.new ≡ self.old) }
    {
        if self.made.is_empty() {
            return Ok(());
        }
        let kept = results_in(self.alloc, &self.made[1..], versions)?;
        let _ = self.made.remove(0);
        self.kept = kept;
        Ok(())
    }

    /// What these actions say of an object: the last one that writes it decides.
    pub fn overlay(&self, object: ObjectId) -> Overlay<'_>
        ensures { overlay_seen result ≡ overlay_of self.now.items object.0 }
    {
        overlay_in(&self.made, &self.kept, object)
    }
    /// Pending actions that are the same.
    pub fn copy(&self) -> Result<Pending, AllocError>
        ensures { IfOk result (λ copy. copy ≡ self.now) }
    {
        let made = copy_made(self.alloc, &self.made)?;
        let kept = copy_kept(self.alloc, &self.kept)?;
        Ok(Pending {
            alloc: self.alloc,
            shape: self.shape,
            made,
            kept,
        })
    }
}

fn item_of<'a>(made: &'a Made, kept: &'a KeptValues) -> PendingItem<'a>
    ensures { item_seen result ≡ record { seq = made.now.seq; action = made.now.action; kept = kept.now } }
{
    PendingItem {
        seq: made.seq,
        action: &made.action,
        kept: match kept {
            Some(values) => Some(values.as_slice()),
            None => None,
        },
    }
}
