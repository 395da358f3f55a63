//! Laws of the payloads: functions that do nothing, and whose contracts are the laws.
ghost use Rattle.sv_wire.specs.Laws.{RequestsDiffer, RepliesDiffer, RequestsAreApart, RepliesAreApart, KindsAreApart, RequestsAreReadBack, RepliesAreReadBack};

/// Each message has one payload, and different messages have different payloads.
pub fn one_payload()
    ensures requests { RequestsDiffer }
    ensures replies { RepliesDiffer }
{}

/// No message's payload begins another message's payload.
pub fn no_payload_begins_another()
    ensures requests { RequestsAreApart }
    ensures replies { RepliesAreApart }
    ensures kinds { KindsAreApart }
{}

/// The payload of a message is decoded as that message.
pub fn encoded_is_read_back()
    ensures requests { RequestsAreReadBack }
    ensures replies { RepliesAreReadBack }
{}
