//! What a scenario file says.

use sv_lists::List;
use sv_world::{Action, ObjectId, World};

/// A run: an opening world, the limits on actions, a script for each client, and the turns of a replay.
#[derive(Debug, Drop)]
pub struct Scenario {
    pub world: World,
    /// The longest chain of influence that an accepted action has, 0 to 32.
    pub bound: u8,
    /// How far an action may be from those that influence it, 0 to 2,000,000, where that is limited.
    pub reach: Option<u32>,
    /// 1 to 32 clients, numbered from 0.
    pub clients: List<Plan>,
    /// At most 16,384 turns.
    pub schedule: List<Turn>,
}

/// What one client is interested in and does.
#[derive(Debug, Drop)]
pub struct Plan {
    /// At most 64 objects, ascending.
    pub interest: List<ObjectId>,
    /// At most 256 steps.
    pub steps: List<Step>,
}

/// A step of a client's script.
#[derive(Debug, Drop)]
pub enum Step {
    /// Makes an action and asks for its acceptance.
    Act(Action),
    /// Asks for an abandoned action.
    Poll,
    /// Asks what 1 to 16 objects are, ascending, all at one position.
    Observe(List<ObjectId>),
    /// Waits until no reply is due.
    Sync,
    /// Notes the views of 1 to 16 objects, in any order, some of them perhaps twice.
    Show(List<ObjectId>),
    /// Gives the session up; the next step joins in another one.
    Cut,
    /// Gives up for good. It is the last step.
    Quit,
}

/// Whose turn it is in a replay.
#[derive(Clone, Copy, Debug, Drop, PartialEq, Eq)]
pub enum Turn {
    /// The client of a number does its next step.
    Client(u16),
    /// The session of a number does its next request.
    Session(u16),
    /// The client of a number takes its next reply.
    Take(u16),
}
