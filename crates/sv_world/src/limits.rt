//! The limits of the subject: how many there may be of what. `specs/Limits.antt` has the same numbers for contracts.
ghost use Rattle.std.specs.Prelude.{◌≡◌};
ghost use Rattle.sv_world.specs.Limits.{most_objects, most_scenario_objects, most_attrs, most_reads, most_nodes, most_depth, most_clients, most_sessions, most_open, most_bound, most_reach, least_coordinate, greatest_coordinate, client_numbers};
ghost use Rattle.sv_world.specs.Limits.{most_interest, most_requests, most_items, most_positions, most_pending, most_outstanding, most_steps, most_shown, most_turns};

/// The objects of a world.
pub const MOST_OBJECTS: u16 = 65_535;

/// The objects of a scenario's world.
pub const MOST_SCENARIO_OBJECTS: u16 = 4096;

/// The attributes of an object.
pub const MOST_ATTRS: u8 = 4;

/// The objects that an action reads.
pub const MOST_READS: usize = 16;

/// The nodes of an action's body.
pub const MOST_NODES: u8 = 64;

/// The levels of an action's body: how deep its nodes are nested.
pub const MOST_DEPTH: u8 = 8;

/// The clients of a scenario.
pub const MOST_CLIENTS: u16 = 32;

/// The sessions of a scenario, over all clients.
pub const MOST_SESSIONS: u16 = 64;

/// The sessions of a server that are open at once.
pub const MOST_OPEN: u16 = 1024;

/// The greatest bound on the actions that influence an action, itself not counted.
pub const MOST_BOUND: u8 = 32;

/// The greatest reach: no two places in the plane are farther apart.
pub const MOST_REACH: u32 = 2_000_000;

/// The least and the greatest coordinate of a place in the plane.
pub const LEAST_COORDINATE: i32 = -1_000_000;

pub const GREATEST_COORDINATE: i32 = 1_000_000;

/// The numbers that the clients of a living world may have, from 0 on.
pub const CLIENT_NUMBERS: u32 = 65_536;

/// The objects of a client's interest.
pub const MOST_INTEREST: usize = 64;

/// The requests of a scenario's session.
pub const MOST_REQUESTS: u16 = 1024;

/// The actions of a relay, which are one and those that influence it; so too the results of a report.
pub const MOST_ITEMS: usize = 33;

/// The positions of a world's actions; and the numbers of one client's actions.
pub const MOST_POSITIONS: u32 = 4_294_967_294;

/// The actions of a client that are not settled yet.
pub const MOST_PENDING: usize = 8;

/// The requests of a client that have no reply yet.
pub const MOST_OUTSTANDING: usize = 16;

/// The steps of a script.
pub const MOST_STEPS: usize = 256;

/// The objects that a step shows.
pub const MOST_SHOWN: usize = 16;

/// The turns of a schedule.
pub const MOST_TURNS: usize = 16_384;

/// A law of the limits: these constants are the numbers that contracts speak of.
pub fn limits_are_those_of_contracts()
    ensures worlds { (MOST_OBJECTS ≡ most_objects) × (MOST_SCENARIO_OBJECTS ≡ most_scenario_objects) × (MOST_ATTRS ≡ most_attrs) × (MOST_REACH ≡ most_reach) }
    ensures actions { (MOST_READS ≡ most_reads) × (MOST_NODES ≡ most_nodes) × (MOST_DEPTH ≡ most_depth) }
    ensures servers { (MOST_CLIENTS ≡ most_clients) × (MOST_SESSIONS ≡ most_sessions) × (MOST_OPEN ≡ most_open) × (MOST_BOUND ≡ most_bound) }
    ensures messages { (MOST_INTEREST ≡ most_interest) × (MOST_REQUESTS ≡ most_requests) × (MOST_ITEMS ≡ most_items) }
    ensures positions { MOST_POSITIONS ≡ most_positions }
    ensures plane { (LEAST_COORDINATE ≡ least_coordinate) × (GREATEST_COORDINATE ≡ greatest_coordinate) }
    ensures living { CLIENT_NUMBERS ≡ client_numbers }
    ensures clients { (MOST_PENDING ≡ most_pending) × (MOST_OUTSTANDING ≡ most_outstanding) }
    ensures scripts { (MOST_STEPS ≡ most_steps) × (MOST_SHOWN ≡ most_shown) × (MOST_TURNS ≡ most_turns) }
{}
