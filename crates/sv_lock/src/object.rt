//! What a lock is round: an object whose steps have one history.
ghost use Rattle.std.specs.Prelude.{◌≡◌, ℕ, List, [], ◌∷◌, ◌++◌, IfOk, OnErr, IsOk};
ghost use Rattle.sv_lock.specs.Histories.{entries_of};

use std::alloc::AllocError;

/// A thing that is changed in steps, each by a caller with a number, and that has a history of them.
///
/// A history is a list of entries, the earliest first. An object whose own definitions take the latest entry first
/// says `history = { λ s. reverse (..) }`, and reverses again in `lawful` and `whole`.
pub trait Object {
    type Request;

    type Reply;

    type Entry;
    /// What no step changes. Only contracts see it.
    type Base;

    ghost base: { Self → Self.Base };

    ghost history: { Self → List Self.Entry };

    /// What a history is for a base. Each object's own history is lawful for its own base: `certify`.
    ghost lawful: { Self.Base → List Self.Entry → Type 0 };

    /// What a step of this number, with this request and this reply, adds to the history.
    ghost entry: { ℕ → Self.Request → Self.Reply → Self.Entry };

    ghost number_of: { Self.Entry → ℕ };

    /// The reply says all that the history, which ends with its entry, has to say.
    ghost whole: { Self.Reply → List Self.Entry → Type 0 };

    /// When a step may be made: by the base, the number, the request, and the entries of that number so far.
    ghost can_step: { Self.Base → ℕ → Self.Request → List Self.Entry → Type 0 };

    /// A request that needs no memory.
    ghost is_plain: { Self.Request → Type 0 };

    /// One step. It takes the request for its own. Where memory runs out, the history stays as it was, and the request is let go.
    fn step(&mut self, number: u16, request: Self::Request) -> Result<Self::Reply, AllocError>
        requires { can_step (base self.old) number request (entries_of number_of number (history self.old)) }
        ensures base { base self.new ≡ base self.old }
        ensures ok { IfOk result (λ r. history self.new ≡ history self.old ++ entry number request r ∷ []) }
        ensures whole { IfOk result (λ r. whole r (history self.new)) }
        ensures err { OnErr result (history self.new ≡ history self.old) }
        ensures plain { is_plain request → IsOk result };

    /// Does nothing: it shows proofs that an object is lawful, which its type says.
    fn certify(&self)
        ensures { lawful (base self.now) (history self.now) };

    ghost number_of_entry: { (number : ℕ) (request : Self.Request) (reply : Self.Reply) → number_of (entry number request reply) ≡ number };
}
