//! Streams that were cut.
ghost use Rattle.law_traffic.specs.Cuts.{CutFramesAreFrontFrames};

/// Where a stream begins the frames of payloads, its own payloads are the first of these, and it has no length over the limit.
pub fn cut_frames_are_front_frames()
    ensures { CutFramesAreFrontFrames }
{}
