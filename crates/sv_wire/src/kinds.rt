//! The kinds of messages.
ghost use Rattle.std.specs.Prelude.{◌≡◌};
ghost use Rattle.sv_wire.specs.Messages.{request_kind_of, reply_kind_of};

#[derive(Clone, Copy)]
pub enum RequestKind {
    Join,
    Submit,
    Done,
    Poll,
    Observe,
    Leave,
}

#[derive(Clone, Copy)]
pub enum ReplyKind {
    Welcome,
    Relay,
    Dropped,
    Denied,
    Seen,
    Settled,
    Noted,
    Idle,
    Refused,
    Bye,
}

#[tactic(auto, unfolding(crate::specs::Messages::request_kind_of))]
pub fn request_kind(byte: u8) -> Option<RequestKind>
    ensures { result ≡ request_kind_of byte }
{
    match byte {
        0x01 => Some(RequestKind::Join),
        0x03 => Some(RequestKind::Done),
        0x04 => Some(RequestKind::Poll),
        0x05 => Some(RequestKind::Leave),
        0x06 => Some(RequestKind::Submit),
        0x07 => Some(RequestKind::Observe),
        _ => None,
    }
}

#[tactic(auto, unfolding(crate::specs::Messages::reply_kind_of))]
pub fn reply_kind(byte: u8) -> Option<ReplyKind>
    ensures { result ≡ reply_kind_of byte }
{
    match byte {
        0x81 => Some(ReplyKind::Welcome),
        0x84 => Some(ReplyKind::Settled),
        0x85 => Some(ReplyKind::Noted),
        0x86 => Some(ReplyKind::Idle),
        0x87 => Some(ReplyKind::Refused),
        0x88 => Some(ReplyKind::Bye),
        0x89 => Some(ReplyKind::Relay),
        0x8a => Some(ReplyKind::Dropped),
        0x8b => Some(ReplyKind::Seen),
        0x8c => Some(ReplyKind::Denied),
        _ => None,
    }
}
