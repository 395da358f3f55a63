//! The ends of a door: how they are opened and taken back.
ghost use Rattle.std.specs.Prelude.{◌≡◌, suc, ◌<◌, [], ◌∷◌, ◌++◌};
ghost use Rattle.sv_link.specs.Books.{CanOpen};
ghost use Rattle.sv_link.specs.Ends.{new_end};
ghost use Rattle.sv_link.specs.Logs.{told_of};
ghost use Rattle.sv_door.specs.Doors.{passage_of};

use std::alloc::Global;
use std::marker::Model;
use sv_link::{Book, EndLog, Side};

/// An end that was given back.
#[derive(Drop)]
pub(crate) struct Returned {
    log: EndLog,
}

impl Model for Returned {
    ghost use Rattle.sv_link.specs.Logs.{told_of};
    ghost use Rattle.sv_door.specs.Doors.{Passage, passage_of};

    ghost Value = { Passage };

    ghost view = { λ r. passage_of (told_of r.log) r.log.faults };
}

/// Gives the log of a new end.
pub(crate) fn open_end(book: &mut Book<Returned>, alloc: Global, side: Side) -> EndLog
    requires room { CanOpen book.old }
    ensures told { (told_of result ≡ new_end book.old.made side) × (result.faults ≡ 0) }
    ensures made { (book.new.made ≡ suc book.old.made) × (book.new.owed ≡ suc book.old.owed) }
    ensures same { (book.new.kept.items ≡ book.old.kept.items) × (book.new.faults ≡ book.old.faults) }
{
    let number = book.take_number();
    EndLog::new(alloc, number, side)
}

/// Takes an end back.
pub(crate) fn take_back(book: &mut Book<Returned>, log: EndLog)
    requires owed { 0 < book.old.owed }
    ensures given { book.new.kept.items ≡ book.old.kept.items ++ passage_of (told_of log) log.faults ∷ [] }
    ensures owed { book.old.owed ≡ suc book.new.owed }
    ensures same { (book.new.made ≡ book.old.made) × (book.new.faults ≡ book.old.faults) }
{
    book.keep(Returned { log });
}
