//! Requests, which clients send, and replies, which the server sends.
use sv_lists::List;
use sv_world::{Action, ClientId, ObjectId, Value};

/// The value of an object.
#[derive(Debug, Drop)]
pub struct ObjectValue {
    pub object: ObjectId,
    pub value: Value,
}

/// An accepted action as a relay carries it: its position in the one order, counted from 1, who made it, and its author's number for it.
#[derive(Debug, Drop)]
pub struct Item {
    pub pos: u32,
    pub client: ClientId,
    pub seq: u32,
    pub action: Action,
}

/// The result of one position: a value for each object that its action writes, ascending.
#[derive(Debug, Drop)]
pub struct Done1 {
    pub pos: u32,
    pub values: List<Value>,
}

/// What a client asks of the server. `Bad` stands for bytes that are no message, and `End` for the end of a session: neither is sent.
#[derive(Debug, Drop)]
pub enum Request {
    /// Begins a session. `life` numbers the client's sessions upwards, and `interest` are the objects whose committed values it wants at once.
    Join {
        client: ClientId,
        life: u32,
        interest: List<ObjectId>,
    },
    /// An action, under the client's own number for it, counted from 1.
    Submit {
        seq: u32,
        action: Action,
    },
    /// The results of the actions of one relay.
    Done {
        results: List<Done1>,
    },
    /// Asks for an abandoned action to complete.
    Poll,
    /// Asks what 1 to 16 objects are, all at one position. `wait` says for how many milliseconds the client would wait for news; the answer's
    /// content does not depend on it.
    Observe {
        objects: List<ObjectId>,
        wait: u16,
    },
    Leave,
    Bad,
    End,
}

/// What the server answers.
#[derive(Debug, Drop)]
pub enum Reply {
    /// The session has begun. `head` has the committed values of the whole interest.
    Welcome {
        commit: u32,
        head: List<ObjectValue>,
    },
    /// Actions to evaluate, ascending by position, and the committed values that they read and the session lacks. `seq` is that of the
    /// Submit that it answers, and 0 for a Poll.
    Relay {
        seq: u32,
        commit: u32,
        head: List<ObjectValue>,
        items: List<Item>,
    },
    /// The action is not accepted: `chain` actions influence it, the farthest at the distance `far`.
    Dropped {
        seq: u32,
        chain: u32,
        far: u32,
    },
    /// The action is not accepted: its client may not write this object.
    Denied {
        seq: u32,
        object: ObjectId,
    },
    /// What an Observe asked for is known at the position `last` once these actions are evaluated on these committed values, of which the
    /// session has all others.
    Seen {
        last: u32,
        commit: u32,
        head: List<ObjectValue>,
        items: List<Item>,
    },
    /// The action has been committed, at this position.
    Settled {
        seq: u32,
        pos: u32,
    },
    Noted {
        commit: u32,
    },
    Idle,
    /// The request breaks a rule. `code` is that of a `Refusal`.
    Refused {
        code: u8,
        detail: u32,
    },
    Bye,
}
