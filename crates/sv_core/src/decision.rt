//! What a core decides on a request.
use sv_wire::Refusal;
use sv_world::ObjectId;

/// An action by its client, and the client's number for it.
#[derive(Clone, Copy, Drop)]
pub(crate) struct ActionId {
    pub client: u16,
    pub seq: u32,
}

/// What is done on a request, where it is not an End.
#[derive(Clone, Copy, Drop)]
pub enum Decision {
    /// The request breaks a rule.
    Refuse {
        refusal: Refusal,
        detail: u32,
    },
    Welcome {
        client: u16,
        life: u32,
    },
    /// A new action is dropped.
    Drop {
        client: u16,
        seq: u32,
        chain: u32,
        far: u32,
    },
    /// An action was dropped before.
    Repeat {
        seq: u32,
        chain: u32,
        far: u32,
    },
    /// A new action is denied: its client may not write the object.
    Deny {
        client: u16,
        seq: u32,
        object: ObjectId,
    },
    /// An action was denied before.
    RepeatDenied {
        seq: u32,
        object: ObjectId,
    },
    Settle {
        seq: u32,
        pos: u32,
    },
    /// A relay of a position that is there.
    Relay {
        seq: u32,
        pos: u32,
    },
    /// A new action is accepted.
    Accept {
        client: u16,
        seq: u32,
    },
    /// Objects are seen at the greatest cut.
    See,
    Note,
    Idle,
    Leave,
}

/// What is done on a request of a session.
#[derive(Clone, Copy, Drop)]
pub struct Decided {
    pub session: u16,
    pub decision: Decision,
}
