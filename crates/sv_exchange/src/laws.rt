//! A law of the frames of messages: a function that does nothing, and whose contract is the law.
ghost use Rattle.sv_exchange.specs.Laws.{RequestFramesDiffer, ReplyFramesDiffer, KindsDiffer};

/// No message's frame begins another message's frame.
pub fn no_frame_begins_another()
    ensures requests { RequestFramesDiffer }
    ensures replies { ReplyFramesDiffer }
    ensures kinds { KindsDiffer }
{}
