//! The lines of the input.
ghost use Rattle.std.specs.Prelude.{◌≡◌, List, option_and_then, ℕ, [], ◌∷◌, ◌++◌, ◌==◌, false, if◌then◌else◌, codes};
ghost use Rattle.std.specs.Option.{option_copied};
ghost use Rattle.std.specs.Str.{bytes_eq};
ghost use Rattle.sv_host.specs.Inputs.{IsAtLine, behind, has_stop, is_nothing, unended};

/// The input, up to the line that stops the server.
#[derive(Clone, Copy, Debug, Drop)]
pub struct InputLines {
    /// What the line, so far, wants to be `stop`. None where it is another one.
    wanted: Option<&'static [u8]>,
}

fn is_over(wanted: Option<&'static [u8]>) -> bool
    ensures { result ≡ is_nothing (option_copied wanted.entry) }
{
    match wanted {
        Some([]) => true,
        _ => false,
    }
}

// What is wanted behind a byte.
fn behind(wanted: Option<&'static [u8]>, byte: u8) -> Option<&'static [u8]>
    ensures { option_copied result ≡ option_and_then (behind (byte ∷ [])) (option_copied wanted.entry) }
{
    match wanted? {
        [next, rest @ ..] if byte == *next => Some(rest),
        _ => None,
    }
}

impl InputLines {
    pub fn new() -> InputLines
        ensures { IsAtLine result [] }
    {
        InputLines {
            wanted: Some(b"stop"),
        }
    }

    // Whether the line is the one that stops.
    #[tactic(auto, using(crate::proofs::Behind::at_whole))]
    fn is_stop(&self) -> bool
        ensures { (line : List ℕ) → IsAtLine self.now line → result ≡ bytes_eq line (codes "stop") }
    {
        is_over(self.wanted)
    }

    // Takes a byte of the line.
    #[tactic(auto, using(crate::proofs::Behind::at_more))]
    fn go_on(&mut self, byte: u8)
        ensures { (line : List ℕ) → IsAtLine self.old line → IsAtLine self.new (line ++ byte ∷ []) }
    {
        self.wanted = behind(self.wanted, byte);
    }

    // Takes a byte. True where it ends the line that stops.
    fn take_byte(&mut self, byte: u8) -> bool
        ensures stops { (line : List ℕ) → IsAtLine self.old line → result ≡ (if byte == 10 then bytes_eq line (codes "stop") else false) }
        ensures line { (line : List ℕ) → IsAtLine self.old line → IsAtLine self.new (if byte == 10 then [] else line ++ byte ∷ []) }
    {
        if byte != b'\n' {
            self.go_on(byte);
            return false;
        }
        let stops = self.is_stop();
        *self = InputLines::new();
        stops
    }

    /// Takes what came. True where a line of it stops the server.
    pub fn take(&mut self, piece: &[u8]) -> bool
        ensures stops { (line : List ℕ) → IsAtLine self.old line → result ≡ has_stop line piece.now }
        ensures line { (line : List ℕ) → IsAtLine self.old line → result ≡ false → IsAtLine self.new (unended line piece.now) }
    {
        for byte in piece {
            if self.take_byte(*byte) {
                return true;
            }
        }
        false
    }
}
