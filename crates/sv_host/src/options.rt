//! The words of a call.
ghost use Rattle.std.specs.Prelude.{◌≡◌, ◌↔◌, false, None, Some, IsTrue, MatchBool, MatchOption, IfOk, IfErr, OnOk, OnErr, option_map, map, string_bytes};
ghost use Rattle.sv_host.specs.Words.{Ask, AsksNothing, IsAddress, IsLocal, asked_by, flagged, measured, named, or_else, plain, syncs_by, taken};
ghost use Rattle.sv_host.specs.declared.options.OptionFault.TheVariants as faults;

use std::alloc::{AllocError, Global};
use std::net::SocketAddr;
use sv_ending::number_in;

/// What the words ask for.
#[derive(Drop)]
pub struct Options<'a> {
    pub world: &'a str,
    pub folder: &'a str,
    pub at: &'a str,
    pub site: Option<&'a str>,
    pub keys: Option<&'a str>,
    pub origins: Vec<&'a str>,
    /// In milliseconds.
    pub idle: u64,
    /// In milliseconds.
    pub report_within: u64,
    pub has_steward: bool,
    /// Lines are synced before replies are sent.
    pub syncs: bool,
    pub state_every: u64,
    pub stops: bool,
}

/// Why there are no options.
#[derive(Clone, Copy, Debug, Drop, PartialEq, Eq)]
pub enum OptionFault {
    Words,
    Memory,
}

impl From<AllocError> for OptionFault {
    ghost use Rattle.std.specs.Prelude.{◌≡◌};
    ghost use Rattle.sv_host.specs.declared.options.OptionFault.TheVariants as faults;

    ghost from_gives = { λ _ e. e ≡ faults.Memory };

    fn from(_e: AllocError) -> OptionFault {
        OptionFault::Memory
    }
}

/// Whether a text is an address with a port.
fn is_address(text: &str) -> bool
    ensures { IsTrue result ↔ IsAddress text.now }
{
    text.parse::<SocketAddr>().is_ok()
}

/// Whether a text is an address of this machine alone.
pub fn is_local(text: &str) -> bool
    ensures { IsTrue result ↔ IsLocal text.now }
{
    match text.parse::<SocketAddr>() {
        Ok(address) => address.ip().is_loopback(),
        Err(_) => false,
    }
}

#[tactic(auto, unfolding(crate::specs::Words::syncs_by))]
fn syncs_by(word: &str) -> Option<bool>
    ensures { result ≡ syncs_by word.now }
{
    match word {
        "batch" => Some(true),
        "none" => Some(false),
        _ => None,
    }
}

impl<'a> Options<'a> {
    fn first(alloc: Global, world: &'a str, folder: &'a str) -> Options<'a>
        ensures { asked_by result ≡ plain world.entry.now folder.entry.now }
    {
        Options {
            world,
            folder,
            at: "127.0.0.1:4000",
            site: None,
            keys: None,
            origins: Vec::new(alloc),
            idle: 60_000,
            report_within: 250,
            has_steward: true,
            syncs: true,
            state_every: 1_000_000,
            stops: false,
        }
    }

    // An option without a value.
    #[tactic(auto, unfolding(crate::specs::Words::flagged))]
    fn take_flag(&mut self, word: &str) -> bool
        ensures taken { MatchBool result (flagged word.now (asked_by self.old) ≡ Some (asked_by self.new))
            (flagged word.now (asked_by self.old) ≡ None) }
        ensures same { result ≡ false → self.new ≡ self.old }
    {
        match word {
            "--no-steward" => self.has_steward = false,
            "--stdin" => self.stops = true,
            _ => return false,
        }
        true
    }

    // An option that names something.
    #[tactic(auto, unfolding(crate::specs::Words::named))]
    fn take_name(&mut self, word: &str, value: &'a str) -> Result<bool, AllocError>
        ensures { IfOk result (λ is_one. MatchBool is_one (named word.now value.entry.now (asked_by self.old) ≡ Some (asked_by self.new))
            ((named word.now value.entry.now (asked_by self.old) ≡ None) × (self.new ≡ self.old))) }
    {
        match word {
            "--at" => self.at = value,
            "--site" => self.site = Some(value),
            "--keys" => self.keys = Some(value),
            "--origin" => self.origins.push(value).map_err(|_| AllocError)?,
            _ => return Ok(false),
        }
        Ok(true)
    }

    // An option with a number or a word of its own.
    #[tactic(auto, unfolding(crate::specs::Words::measured))]
    fn take_value(&mut self, word: &str, value: &str) -> Option<()>
        ensures { MatchOption result (measured word.now value.now (asked_by self.old) ≡ None)
            (λ _. measured word.now value.now (asked_by self.old) ≡ Some (asked_by self.new)) }
    {
        match word {
            "--idle" => self.idle = number_in(value, 1, 1_000_000)? as u64 * 1000,
            "--report-within" => self.report_within = number_in(value, 0, 1_000_000)? as u64,
            "--state-every" => self.state_every = number_in(value, 1, 4_000_000_000)? as u64,
            "--sync" => self.syncs = syncs_by(value)?,
            _ => return None,
        }
        Some(())
    }

    // An option with a value.
    fn take_valued(&mut self, word: &str, value: &'a str) -> Result<(), OptionFault>
        ensures ok { OnOk result (or_else (named word.now value.entry.now (asked_by self.old)) (measured word.now value.entry.now (asked_by self.old)) ≡ Some (asked_by self.new)) }
        ensures err { IfErr result (λ e. e ≡ faults.Words → or_else (named word.now value.entry.now (asked_by self.old)) (measured word.now value.entry.now (asked_by self.old)) ≡ None) }
    {
        if self.take_name(word, value)? {
            return Ok(());
        }
        match self.take_value(word, value) {
            Some(()) => Ok(()),
            None => Err(OptionFault::Words),
        }
    }

    // Takes the options one by one.
    fn take(&mut self, words: &'a [String]) -> Result<(), OptionFault>
        ensures ok { OnOk result (taken (map string_bytes words.entry.now) (asked_by self.old) ≡ Some (asked_by self.new)) }
        ensures err { IfErr result (λ e. e ≡ faults.Words → taken (map string_bytes words.entry.now) (asked_by self.old) ≡ None) }
    {
        let mut rest = words;
        while let Some((word, behind)) = rest.split_first() {
            if self.take_flag(word.as_str()) {
                rest = behind;
                continue;
            }
            let Some((value, behind)) = behind.split_first() else {
                return Err(OptionFault::Words);
            };
            self.take_valued(word.as_str(), value.as_str())?;
            rest = behind;
        }
        Ok(())
    }
}

/// What the words ask for: `host WORLD DIR` and options.
pub fn options_of(alloc: Global, words: &[String]) -> Result<Options<'_>, OptionFault>
    ensures ok { IfOk result (λ options. Ask (map string_bytes words.now) (asked_by options)) }
    ensures err { IfErr result (λ e. e ≡ faults.Words → AsksNothing (map string_bytes words.now)) }
{
    let [word, world, folder, rest @ ..] = words else {
        return Err(OptionFault::Words);
    };
    if word.as_str() != "host" {
        return Err(OptionFault::Words);
    }
    let mut options = Options::first(alloc, world.as_str(), folder.as_str());
    options.take(rest)?;
    if !is_address(options.at) {
        return Err(OptionFault::Words);
    }
    Ok(options)
}
