//! What a server is opened with.
ghost use Rattle.std.specs.Prelude.{◌≡◌, ◌≤◌, ◌||◌, not, nat_lt, nat_le, length, option_map, unwrap_or};
ghost use Rattle.sv_world.specs.declared.world.ObjectId.{ObjectId};
ghost use Rattle.sv_world.specs.Limits.{most_positions, most_reads};
ghost use Rattle.sv_world.specs.Rights.{first_forbidden};
ghost use Rattle.sv_journal.specs.Answer.{scenario_rules, is_above, is_no_next_life};
ghost use Rattle.sv_journal.specs.Living.{living_rules};

use std::marker::Model;
use sv_lists::List;
use sv_world::{
    Action, CLIENT_NUMBERS, ClientId, MOST_CLIENTS, MOST_POSITIONS, MOST_REQUESTS, ObjectId, Right,
    World, first_forbidden,
};

/// How far a Join's life may be above the greatest one of its client, in a world without end.
const MOST_LEAP: u32 = 1000;

/// What a server is opened with: its world and the limits on what it accepts. Contracts see it as the rules. Where there is none of a limit,
/// there is no end of it.
#[derive(Drop)]
pub struct Opened {
    pub(crate) world: World,
    /// How many actions may influence an action that is accepted.
    pub(crate) bound: u8,
    /// How far away the farthest of them may have been made.
    pub(crate) reach: Option<u32>,
    pub(crate) sessions: Option<u16>,
    pub(crate) clients: u32,
    /// How many requests a session may make.
    pub(crate) requests: Option<u16>,
    pub(crate) leap: Option<u32>,
    pub(crate) positions: u32,
    pub(crate) rights: Option<List<Right>>,
}

impl Model for Opened {
    ghost use Rattle.sv_journal.specs.Answer.{Rules};

    ghost Value = { Rules };

    ghost view = { λ o. record { world = o.world; bound = o.bound; reach = o.reach; sessions = o.sessions; clients = o.clients; requests = o.requests; leap = o.leap; positions = o.positions; rights = o.rights } };
}

impl Opened {
    /// For a scenario: so many sessions, with the limits that its clients have.
    pub fn scenario(world: World, bound: u8, reach: Option<u32>, sessions: u16) -> Opened
        ensures { result ≡ scenario_rules world bound reach sessions }
    {
        Opened {
            world,
            bound,
            reach,
            sessions: Some(sessions),
            clients: u32::from(MOST_CLIENTS),
            requests: Some(MOST_REQUESTS),
            leap: None,
            positions: MOST_POSITIONS,
            rights: None,
        }
    }

    /// For a world without end: there may be a client for each number that a message has.
    pub fn living(
        world: World,
        bound: u8,
        reach: Option<u32>,
        rights: Option<List<Right>>,
    ) -> Opened
        ensures { result ≡ living_rules world bound reach rights }
    {
        Opened {
            world,
            bound,
            reach,
            sessions: None,
            clients: CLIENT_NUMBERS,
            requests: None,
            leap: Some(MOST_LEAP),
            positions: MOST_POSITIONS,
            rights,
        }
    }

    /// The same with an end after so many accepted actions: for tests, and for a world that is to end early.
    pub fn with_positions(self, positions: u32) -> Opened
        ensures { result ≡ record self { positions = positions } }
    {
        let mut opened = self;
        opened.positions = positions;
        opened
    }

    /// The world as it was at first.
    pub fn world(&self) -> &World
        ensures { result.now ≡ self.now.world }
    {
        &self.world
    }

    /// How many sessions there may be.
    pub(crate) fn sessions(&self) -> Option<u16>
        ensures { result ≡ self.now.sessions }
    {
        self.sessions
    }

    /// How many sessions sit at slots from the start.
    pub(crate) fn first_sessions(&self) -> u16
        ensures { result ≡ unwrap_or self.now.sessions 0 }
    {
        match self.sessions {
            Some(sessions) => sessions,
            None => 0,
        }
    }

    /// How many requests a session may make.
    pub(crate) fn requests(&self) -> Option<u16>
        ensures { result ≡ self.now.requests }
    {
        self.requests
    }

    /// Whether there is a client of this number.
    pub(crate) fn has_client(&self, client: ClientId) -> bool
        ensures { result ≡ not (nat_le self.now.clients client.0) }
    {
        u32::from(client.0) < self.clients
    }

    /// Whether a Join's life is no next one where this is the greatest one so far.
    pub(crate) fn is_no_next_life(&self, greatest: u32, life: u32) -> bool
        ensures { result ≡ is_no_next_life self.now.leap greatest life }
    {
        life <= greatest || is_above(self.leap, life - greatest)
    }

    /// Whether an action that so much influences is dropped.
    pub(crate) fn is_dropped(&self, chain: u32, far: u32) -> bool
        ensures { result ≡ (nat_lt self.now.bound chain || is_above self.now.reach far) }
    {
        u32::from(self.bound) < chain || is_above(self.reach, far)
    }

    /// Whether no position is left after so many actions, or no number for a client's next action.
    pub(crate) fn is_full(&self, accepted: u32, seq: u32) -> bool
        ensures { result ≡ (nat_le self.now.positions accepted || nat_lt most_positions seq) }
    {
        self.positions <= accepted || MOST_POSITIONS < seq
    }

    /// The lowest object that an action writes and its client may not write.
    pub(crate) fn forbidden(&self, client: u16, action: &Action) -> Option<ObjectId>
        requires { length action.now.reads ≤ most_reads }
        ensures { option_map (λ (o : ObjectId). o.0) result ≡ first_forbidden self.now.rights client action.now }
    {
        first_forbidden(&self.rights, ClientId(client), action)
    }
}

/// Whether a number is above a limit, where there is one.
fn is_above(limit: Option<u32>, number: u32) -> bool
    ensures { result ≡ is_above limit number }
{
    match limit {
        Some(limit) => limit < number,
        None => false,
    }
}
