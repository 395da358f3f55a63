//! What a world file says.

use sv_lists::List;
use sv_world::{Right, World};

/// The rules of a world without end.
#[derive(Debug, Drop)]
pub struct WorldFile {
    /// The world as it is at first.
    pub world: World,
    /// The longest chain of influence that an accepted action has, 0 to 32.
    pub bound: u8,
    /// How far an action may be from those that influence it, 0 to 2,000,000, where that is limited.
    pub reach: Option<u32>,
    /// Who may write what, at most 65,536 of them; nobody may write where the list is empty. Without a list everybody may write everything.
    pub rights: Option<List<Right>>,
    pub results: Results,
}

/// Whose report of an action's results counts.
#[derive(Clone, Copy, Debug, Drop, PartialEq, Eq)]
pub enum Results {
    /// The first one.
    First,
    /// The steward's alone.
    Authority,
}
