//! The journal's part of a report.
ghost use Rattle.std.specs.Prelude.{◌≡◌, ℕ, List, [], ◌∷◌, ◌+◌, ◌<◌, ◌^◌, ◌++◌, true, false, Some, length, reverse, IfOk, OnOk};
ghost use Rattle.sv_scenario.specs.Limits.{IsGoodScenario};
ghost use Rattle.law_asked.specs.Numbers.{ScenarioFits};
ghost use Rattle.sv_journal.specs.Sessions.{is_end, is_ended};
ghost use Rattle.sv_journal.specs.Answer.{MayBeSession, Legal, reply_to};
ghost use Rattle.sv_journal.specs.History.{entry_of};
ghost use Rattle.sv_sequencer.specs.Step.{history};
ghost use Rattle.sv_journal.specs.Text.{journal_text};
ghost use Rattle.law_system.specs.Records.{rules_of};
ghost use Rattle.sv_lines.specs.declared.stop.LineStop.TheVariants.{Wrong};
ghost use Rattle.sv_lines.specs.Told.{IsTold};
ghost use Rattle.sv_check.specs.Serving.{IsServed, AreEnded, entries_of};
ghost use Rattle.sv_check.specs.Entering.{header_text, NoHeader, lines_of, HasServed, HasServedAll, TextBreaksOff};
ghost use Rattle.sv_check.specs.Parts.{IsWholeJournal};
ghost use Rattle.sv_check.specs.Stopping.{IsJournalStop, IfWrong};

use crate::runs::laws_of_runs;
use std::alloc::{AllocError, Global};
use sv_journal::{full_replies_stay, legal_relays_name_accepted, print_journal};
use sv_lines::{
    Asked, LineFault, LineStop, asked_at, expect, line_length, number_at, take_line, take_lines,
};
use sv_replay::{are_ended, open_sequencer};
use sv_scenario::Scenario;
use sv_sequencer::Sequencer;
use sv_wire::{Reply, Request};

/// A server that answered the requests of the journal's lines, with its whole replies.
#[derive(Drop)]
pub(crate) struct Served {
    pub sequencer: Sequencer,
    pub replies: Vec<Reply>,
}

/// The number of entries that the first line tells, and what comes after the line.
fn take_header(alloc: Global, text: &[u8]) -> Result<(u32, &[u8]), LineStop>
    ensures taken { IfOk result (λ r. text.now ≡ header_text r.0 ++ r.1.now) }
    ensures small { IfOk result (λ r. r.0 < 2 ^ 32) }
    ensures wrong { IfWrong result (λ left. (left ≡ length text.now) × NoHeader text.now) }
{
    let Some(count) = told_count(text) else {
        return Err(LineStop::Wrong { left: text.len() });
    };
    let line = format!(in alloc; "journal {count}\n")?;
    let rest = take_line(text, line.as_bytes())?;
    Ok((count, rest))
}

/// The stop at the line with which a text begins.
fn stop_at(text: &[u8]) -> LineStop
    ensures { result ≡ Wrong (length text.now) }
{
    LineStop::Wrong { left: text.len() }
}

/// The number of the first line. Where the text begins with such a line, it is that number.
fn told_count(text: &[u8]) -> Option<u32>
    ensures { (count : ℕ) (rest : List ℕ) → count < 2 ^ 32 → text.now ≡ header_text count ++ rest → result ≡ Some count }
{
    let Ok(rest) = expect(text, b"journal ") else {
        return None;
    };
    match number_at(rest) {
        Ok((count, _)) => Some(count),
        Err(_) => None,
    }
}

impl Served {
    /// A server that was asked nothing yet.
    fn open(alloc: Global, scenario: &Scenario) -> Result<Served, AllocError>
        requires { IsGoodScenario scenario.now }
        ensures served { IfOk result (λ served. IsServed scenario.now served) }
        ensures none { IfOk result (λ served. entries_of served ≡ []) }
    {
        Ok(Served {
            sequencer: open_sequencer(alloc, scenario)?,
            replies: Vec::new(alloc),
        })
    }

    /// Whether a request is of a session that may make it: a second End is none.
    #[tactic(auto, using(crate::proofs::Limited::below_may, crate::proofs::Limited::may_below))]
    fn may_answer(&self, asked: &Asked) -> bool
        ensures may { result ≡ true → (MayBeSession self.now.sequencer.rules.sessions asked.now.session) × (is_end asked.now.request ≡ true → is_ended (history self.now.sequencer) asked.now.session ≡ false) }
        ensures no { result ≡ false → MayBeSession self.now.sequencer.rules.sessions asked.now.session → (is_end asked.now.request ≡ true → is_ended (history self.now.sequencer) asked.now.session ≡ false) → ⊥ }
    {
        if asked.session >= self.sequencer.sessions() {
            return false;
        }
        match asked.request {
            Request::End => !self.sequencer.is_ended(asked.session),
            _ => true,
        }
    }

    /// A law: the journal of its server is legal.
    pub(crate) fn is_legal(&self)
        ensures { Legal self.now.sequencer.rules (history self.now.sequencer) }
    {
        let _ = self.sequencer.journal();
    }

    /// Answers a request that it may answer.
    fn answer(&mut self, scenario: &Scenario, asked: Asked) -> Result<(), AllocError>
        requires served { IsServed scenario.now self.old }
        requires session { MayBeSession self.old.sequencer.rules.sessions asked.session }
        requires told { IsTold scenario.now.world.shape asked.request }
        requires first { is_end asked.request ≡ true → is_ended (history self.old.sequencer) asked.session ≡ false }
        ensures served { OnOk result (IsServed scenario.now self.new) }
        ensures more { OnOk result (entries_of self.new ≡ entries_of self.old
            ++ entry_of asked.session asked.request (reply_to (rules_of scenario.now) (history self.old.sequencer) asked.session asked.request) ∷ []) }
    {
        let _ = scenario;
        full_replies_stay();
        legal_relays_name_accepted();
        self.is_legal();
        let Asked { session, request } = asked;
        let reply = self.sequencer.step(session, request)?;
        self.replies.push(reply)?;
        Ok(())
    }

    /// Answers the request of the line that a text begins with. Whether it has one that may be asked.
    fn serve(&mut self, alloc: Global, scenario: &Scenario, text: &[u8]) -> Result<bool, AllocError>
        requires good { IsGoodScenario scenario.now }
        requires served { IsServed scenario.now self.old }
        requires few { length (entries_of self.old) + 1 < 2 ^ 32 }
        ensures served { OnOk result (IsServed scenario.now self.new) }
        ensures told { IfOk result (λ is. HasServed scenario.now self.old self.new text.now is) }
    {
        match asked_at(alloc, scenario.world.shape, text) {
            Ok(asked) => {
                if !self.may_answer(&asked) {
                    // A tree that is let go at the end of its scope makes a long proof; a call that takes it, none.
                    drop(asked);
                    return Ok(false);
                }
                self.answer(scenario, asked)?;
                Ok(true)
            }
            Err(LineFault::Wrong) => Ok(false),
            Err(LineFault::Memory) => Err(AllocError),
        }
    }

    /// Answers the requests of so many lines, up to the first that has none. Whether all have one.
    fn serve_all(
        &mut self,
        alloc: Global,
        scenario: &Scenario,
        count: u32,
        text: &[u8],
    ) -> Result<bool, AllocError>
        requires good { IsGoodScenario scenario.now }
        requires served { IsServed scenario.now self.old }
        requires none { entries_of self.old ≡ [] }
        ensures served { OnOk result (IsServed scenario.now self.new) }
        ensures told { IfOk result (λ whole. HasServedAll scenario.now self.new text.now count whole) }
    {
        let mut rest = text;
        for _ in 0..count {
            if !self.serve(alloc, scenario, rest)? {
                return Ok(false);
            }
            let (_, more) = rest.split_at(line_length(rest));
            rest = more;
        }
        Ok(true)
    }

    /// What comes after the lines of all entries so far, which have to come next.
    fn take_entries<'a>(
        &self,
        alloc: Global,
        scenario: &Scenario,
        text: &'a [u8],
    ) -> Result<&'a [u8], LineStop>
        requires { IsServed scenario.now self.now }
        ensures taken { IfOk result (λ rest. text.now ≡ lines_of scenario.now.world.shape (entries_of self.now) ++ rest.now) }
        ensures wrong { IfWrong result (TextBreaksOff scenario.now.world.shape (entries_of self.now) text.now) }
    {
        full_replies_stay();
        legal_relays_name_accepted();
        let mut printed = String::new(alloc);
        print_journal(scenario.world.shape, self.sequencer.journal(), &mut printed)?;
        let (_, lines) = printed.as_bytes().split_at(line_length(printed.as_bytes()));
        take_lines(text, lines)
    }
}

/// The server that a text's journal tells of, and what comes after the journal.
pub(crate) fn take_journal<'a>(
    alloc: Global,
    scenario: &Scenario,
    text: &'a [u8],
) -> Result<(Served, &'a [u8]), LineStop>
    requires good { IsGoodScenario scenario.now }
    requires fits { ScenarioFits scenario.now }
    requires short { length text.now < 2 ^ 32 }
    ensures served { IfOk result (λ r. IsServed scenario.now r.0) }
    ensures ended { IfOk result (λ r. AreEnded scenario.now (history r.0.sequencer)) }
    ensures whole { IfOk result (λ r. IsWholeJournal scenario.now (history r.0.sequencer)) }
    ensures text { IfOk result (λ r. text.now ≡ journal_text scenario.now.world.shape (entries_of r.0) ++ r.1.now) }
    ensures wrong { IfWrong result (IsJournalStop scenario.now text.now) }
{
    laws_of_runs();
    let (count, entries) = take_header(alloc, text)?;
    let mut served = Served::open(alloc, scenario)?;
    let whole = served.serve_all(alloc, scenario, count, entries)?;
    let rest = served.take_entries(alloc, scenario, entries)?;
    let stop = stop_at(rest);
    if !whole {
        return Err(stop);
    }
    if !are_ended(&served.sequencer) {
        return Err(stop);
    }
    Ok((served, rest))
}
