//! Why a request is refused, and the codes that a refusal carries.
ghost use Rattle.std.specs.Prelude.{◌≡◌};
ghost use Rattle.sv_wire.specs.Refusals.{code_of};

/// The rule that a request breaks.
#[derive(Clone, Copy, Debug, Drop, PartialEq, Eq)]
pub enum Refusal {
    /// The payload is no request.
    Malformed,
    /// The session was not joined.
    NotJoined,
    /// The session was joined before.
    AlreadyJoined,
    /// The session is over.
    Over,
    /// The sequence number is not the client's next one, which is the detail.
    WrongSequence,
    /// The check refuses the action. The detail is the number of its cause.
    BadAction,
    /// The results are none that this session may report.
    BadResults,
    /// The objects of interest, or those that are observed, don't ascend, are too many or too few, or one is not of the world.
    BadInterest,
    /// The session has made all its requests.
    TooManyRequests,
    /// The client's number is too great.
    NoSuchClient,
    /// The life is not above the client's last one, which is the detail.
    OldLife,
    /// All positions are taken.
    Full,
}

/// The greatest code.
pub(crate) const LAST_CODE: u8 = 12;

impl Refusal {
    /// The code of a refusal, from 1.
    pub fn code(self) -> u8
        ensures { result ≡ code_of self }
    {
        match self {
            Refusal::Malformed => 1,
            Refusal::NotJoined => 2,
            Refusal::AlreadyJoined => 3,
            Refusal::Over => 4,
            Refusal::WrongSequence => 5,
            Refusal::BadAction => 6,
            Refusal::BadResults => 7,
            Refusal::BadInterest => 8,
            Refusal::TooManyRequests => 9,
            Refusal::NoSuchClient => 10,
            Refusal::OldLife => 11,
            Refusal::Full => 12,
        }
    }
}
