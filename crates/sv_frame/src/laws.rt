//! Laws of frames and streams, each of them the clause of a function that does nothing.
ghost use Rattle.std.specs.Prelude.{◌≡◌, ◌<◌, ◌↔◌, List, [], ◌++◌, ℕ, None, Some, map};
ghost use Rattle.std.specs.List.{AllByRecursion};
ghost use Rattle.sv_frame.specs.Frames.{greatest_payload, frame, frames_of, FitsFrame, first_frame, too_long};
ghost use Rattle.sv_frame.specs.Streams.{AreBytes, Splits, split_frames, split_on, with_first, incoming_items};
ghost use Rattle.sv_frame.specs.Streams.StreamItem.{Payload};

/// A stream's payloads are those of its first frame, and then those of what comes after that frame.
pub fn payloads_come_one_by_one()
    ensures empty { split_frames [] ≡ ([], []) }
    ensures first { (stream payload after : List ℕ) → first_frame stream ≡ Some (payload, after) → split_frames stream ≡ with_first payload (split_frames after) }
    ensures none { (stream : List ℕ) → first_frame stream ≡ None → split_frames stream ≡ ([], stream) }
    ensures rest { (stream : List ℕ) → first_frame (split_frames stream).1 ≡ None }
{}

/// It does not matter where a stream was cut: its payloads are those of the first piece, and then those of that piece's
/// rest with the second piece after it.
pub fn streams_may_be_cut()
    ensures payloads { (first second : List ℕ) → split_frames (first ++ second) ≡ split_on (split_frames first) second }
    ensures items { (first second : List ℕ) → incoming_items (first ++ second) ≡ map Payload (split_frames first).0 ++ incoming_items ((split_frames first).1 ++ second) }
{}

/// The payloads of frames that were written are read back, and nothing else is.
pub fn frames_are_read_back()
    ensures whole { (payloads : List (List ℕ)) → AllByRecursion FitsFrame payloads → split_frames (frames_of payloads) ≡ (payloads, []) }
    ensures followed { (payloads : List (List ℕ)) (more : List ℕ) → AllByRecursion FitsFrame payloads → split_frames (frames_of payloads ++ more) ≡ (payloads ++ (split_frames more).0, (split_frames more).1) }
{}

/// A stream is the frames of its payloads and a rest that begins with no frame, and it is so in one way only.
pub fn streams_are_their_frames()
    ensures { (stream : List ℕ) (payloads : List (List ℕ)) (rest : List ℕ) → AreBytes stream → Splits stream payloads rest ↔ (split_frames stream ≡ (payloads, rest)) }
{}

/// No payload's frame begins another payload's frame.
pub fn frames_are_apart()
    ensures { (payload other after behind : List ℕ) → FitsFrame payload → FitsFrame other → frame payload ++ after ≡ frame other ++ behind → (payload ≡ other) × (after ≡ behind) }
{}

/// A length over the limit stays where it is, and nothing comes in after it.
pub fn too_long_is_final()
    ensures over { (stream : List ℕ) (n : ℕ) → too_long stream ≡ Some n → greatest_payload < n }
    ensures stays { (stream more : List ℕ) (n : ℕ) → too_long stream ≡ Some n → too_long (stream ++ more) ≡ Some n }
    ensures no_frame { (stream : List ℕ) (n : ℕ) → too_long stream ≡ Some n → first_frame stream ≡ None }
    ensures last { (first second : List ℕ) (n : ℕ) → too_long (split_frames first).1 ≡ Some n → incoming_items (first ++ second) ≡ incoming_items first }
{}
