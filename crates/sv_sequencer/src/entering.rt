//! A core and a journal that has room for the Ends to come: what the core does goes into the journal.
ghost use Rattle.std.specs.Prelude.{◌≡◌, List, ◌-◌, ◌<◌, ◌≤◌, [], ◌∷◌, ◌++◌, false, Some, IfOk, OnOk, OnErr};
ghost use Rattle.sv_world.specs.Limits.{most_sessions};
ghost use Rattle.sv_world.specs.Worlds.{IsGoodWorld};
ghost use Rattle.sv_journal.specs.declared.entry.Entry.{Entry};
ghost use Rattle.sv_journal.specs.Sessions.{is_end, is_ended};
ghost use Rattle.sv_journal.specs.Answer.{scenario_rules};
ghost use Rattle.sv_core.specs.Cores.{core_rules, owed_by, session_at, Keeps, CarriedOut, SitByNumber};
ghost use Rattle.sv_core.specs.Decisions.{DecisionHolds};
ghost use Rattle.sv_sequencer.specs.Entering.{HasRoomForEnds, TookEntry, EnteredReply, NothingEntered};
ghost use Rattle.sv_journal.specs.History.{entry_of, end_entry};

use std::alloc::{AllocError, Global};
use sv_core::{Answer, Core, Decided, Opened, Seat};
use sv_journal::{Entry, Journal, Logged};
use sv_wire::{Reply, Request};
use sv_world::World;

/// Opens a core for so many sessions, each at the slot of its number, and a journal without entries that has room for the Ends of all of them.
///
/// An action is dropped where more than `bound` actions influence it, or, where a reach is given, one that was made farther away.
pub fn open_core(
    alloc: Global,
    world: World,
    bound: u8,
    reach: Option<u32>,
    sessions: u16,
) -> Result<(Core, Journal), AllocError>
    requires world { IsGoodWorld world }
    requires few { sessions ≤ most_sessions }
    ensures rules { IfOk result (λ opened. core_rules opened.0 ≡ scenario_rules world bound reach sessions) }
    ensures seats { IfOk result (λ opened. SitByNumber opened.0) }
    ensures keeps { IfOk result (λ opened. Keeps opened.0 []) }
    ensures empty { IfOk result (λ opened. opened.1.entries ≡ []) }
    ensures room { IfOk result (λ opened. HasRoomForEnds opened.0 opened.1) }
{
    let core = Core::new(alloc, Opened::scenario(world, bound, reach, sessions))?;
    let mut journal = Journal::new(alloc);
    journal.reserve(sessions as usize)?;
    Ok((core, journal))
}

/// The End of a session that sits at the slot of its number, whose entry the journal gets. It takes no memory. `h` is a history that the core
/// keeps.
pub fn enter_end(core: &mut Core, journal: &mut Journal, session: u16)
    ghost h: { List Entry }
    requires keeps { Keeps core.old h }
    requires seat { session_at core.old session ≡ Some session }
    requires first { is_ended h session ≡ false }
    requires room { HasRoomForEnds core.old journal.old }
    ensures { TookEntry core.old core.new journal.old journal.new h (end_entry session) (end_entry session) }
{
    let seat = Seat::own(session);
    core.end(seat);
    journal.push(Entry {
        session,
        request: Request::End,
        reply: Logged::Bye,
    });
}

/// Does what was decided on a request of a session that sits at the slot of its number, and enters it with the reply, which it gives in full. `h`
/// is a history that the core keeps, by which the decision holds.
///
/// The journal keeps the request itself. After running out of memory everything is as it was, but for room in the journal, and the request is let
/// go.
pub fn enter_reply(
    core: &mut Core,
    journal: &mut Journal,
    decided: Decided,
    request: Request,
) -> Result<Reply, AllocError>
    ghost h: { List Entry }
    requires keeps { Keeps core.old h }
    requires seat { session_at core.old decided.session ≡ Some decided.session }
    requires more { is_end request ≡ false }
    requires holds { DecisionHolds (core_rules core.old) h decided.session request decided.decision }
    ensures ok { IfOk result (EnteredReply core.old core.new journal.old journal.new h decided.session request request decided.decision) }
    ensures err { OnErr result (NothingEntered core.old core.new journal.old journal.new h) }
{
    match carry_out(core, journal, decided, &request) {
        Ok(answer) => Ok(enter(journal, decided.session, request, answer)),
        Err(error) => {
            // A tree that is let go at the end of its scope makes a long proof; a call that takes it, none.
            drop(request);
            Err(error)
        }
    }
}

/// The same, where the core takes another request than was asked: what was asked is entered, with the reply to what was taken.
pub fn enter_asked(
    core: &mut Core,
    journal: &mut Journal,
    decided: Decided,
    asked: Request,
    taken: &Request,
) -> Result<Reply, AllocError>
    ghost h: { List Entry }
    requires keeps { Keeps core.old h }
    requires seat { session_at core.old decided.session ≡ Some decided.session }
    requires more { is_end taken.now ≡ false }
    requires holds { DecisionHolds (core_rules core.old) h decided.session taken.now decided.decision }
    ensures ok { IfOk result (EnteredReply core.old core.new journal.old journal.new h decided.session asked taken.now decided.decision) }
    ensures err { OnErr result (NothingEntered core.old core.new journal.old journal.new h) }
{
    match carry_out(core, journal, decided, taken) {
        Ok(answer) => Ok(enter(journal, decided.session, asked, answer)),
        Err(error) => {
            drop(asked);
            Err(error)
        }
    }
}

/// Does what was decided once the journal has room for its entry and for the Ends that are to come.
fn carry_out(
    core: &mut Core,
    journal: &mut Journal,
    decided: Decided,
    request: &Request,
) -> Result<Answer, AllocError>
    ghost h: { List Entry }
    requires keeps { Keeps core.old h }
    requires seat { session_at core.old decided.session ≡ Some decided.session }
    requires more { is_end request.now ≡ false }
    requires holds { DecisionHolds (core_rules core.old) h decided.session request.now decided.decision }
    ensures ok { IfOk result (CarriedOut core.old core.new h decided.session request.now decided.decision) }
    ensures entries { journal.new.entries ≡ journal.old.entries }
    ensures room { OnOk result (owed_by core.new < journal.new.spare) }
    ensures err { OnErr result (NothingEntered core.old core.new journal.old journal.new h) }
{
    let Decided { session, decision } = decided;
    journal.reserve(core.owed() as usize + 1)?;
    let seat = Seat::own(session);
    core.carry_out(seat, request, decision)
}

/// Enters a request with its reply into a journal that has room, and gives the reply in full.
fn enter(journal: &mut Journal, session: u16, request: Request, answer: Answer) -> Reply
    requires { 0 < journal.old.spare }
    ensures journal { journal.new ≡ record { entries = journal.old.entries ++ entry_of session request answer.logged ∷ []; spare = journal.old.spare - 1 } }
    ensures reply { result ≡ answer.reply }
{
    let Answer { logged, reply } = answer;
    journal.push(Entry {
        session,
        request,
        reply: logged,
    });
    reply
}
