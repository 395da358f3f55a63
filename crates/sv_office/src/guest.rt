//! A connection, as the loop keeps it.
ghost use Rattle.std.specs.Prelude.{◌≡◌, true};
ghost use Rattle.sv_office.specs.Admitting.{is_observe};

use std::alloc::Global;
use sv_peer::Peer;
use sv_wire::Request;
use sv_world::ClientId;

/// Where a connection stands.
#[derive(Clone, Copy, Debug, Drop, PartialEq, Eq)]
pub enum Standing {
    /// It is served.
    Open,
    /// Its session is over. What is to be sent is sent, and then it is closed.
    Closing,
    /// It is closed at the end of the turn.
    Gone,
}

/// An Observe that waits for news.
#[derive(Drop)]
pub struct Held {
    pub request: Request,
    /// The time at which it is answered at the latest.
    pub until: u64,
    ghost observes: { is_observe request ≡ true },
}

/// A connection.
#[derive(Drop)]
pub struct Guest {
    pub peer: Peer,
    /// Its session, from its first whole request on, and until that has its End.
    pub session: Option<u64>,
    /// The digest of the key that it showed.
    pub key: Option<[u8; 32]>,
    pub held: Option<Held>,
    /// It stands in the list of those with a held Observe.
    pub is_listed: bool,
    /// When its last whole request came, or its held one was answered.
    pub heard: u64,
    pub standing: Standing,
    /// There may be more to take of it than was taken in its turn.
    pub has_more: bool,
    /// It had its turn already.
    pub had_turn: bool,
    /// A whole message came of it.
    pub has_spoken: bool,
    /// The client as which it joined last.
    pub client: Option<ClientId>,
}

impl Guest {
    ghost use Rattle.std.specs.Prelude.{◌↔◌, false, None, IsTrue};
    ghost use Rattle.sv_peer.specs.View.{new_peer};
    ghost use Rattle.sv_office.specs.declared.guest.Standing.TheVariants as standing;
    ghost use Rattle.sv_office.specs.Guests.{ClosesGuest};

    pub fn new(alloc: Global, now: u64) -> Guest
        ensures peer { result.peer ≡ new_peer }
        ensures session { result.session ≡ None }
        ensures key { result.key ≡ None }
        ensures standing { result.standing ≡ standing.Open }
        ensures spoken { result.has_spoken ≡ false }
        ensures held { result.held ≡ None }
        ensures client { result.client ≡ None }
    {
        Guest {
            peer: Peer::new(alloc),
            session: None,
            key: None,
            held: None,
            is_listed: false,
            heard: now,
            standing: Standing::Open,
            has_more: false,
            had_turn: false,
            has_spoken: false,
            client: None,
        }
    }

    /// Nothing more is taken of it.
    pub fn close(&mut self)
        ensures { ClosesGuest self.old self.new }
    {
        if self.standing == Standing::Open {
            self.standing = Standing::Closing;
            self.peer.finish();
        }
        self.held = None;
        self.has_more = false;
    }

    /// It is closed at once.
    pub fn leave(&mut self)
        ensures { self.new ≡ record self.old { standing = standing.Gone; held = None; has_more = false } }
    {
        self.standing = Standing::Gone;
        self.held = None;
        self.has_more = false;
    }

    pub fn is_open(&self) -> bool
        ensures { IsTrue result ↔ (self.now.standing ≡ standing.Open) }
    {
        self.standing == Standing::Open
    }
}
