//! Playing a script over the ends of its client's sessions.
ghost use Rattle.std.specs.Prelude.{◌≡◌, ◌≢◌, ◌+◌, ◌<◌, ◌≤◌, true, [], length, is_some, IfSome};
ghost use Rattle.std.specs.List.{AllByRecursion};
ghost use Rattle.sv_world.specs.Limits.{most_sessions};
ghost use Rattle.sv_client.specs.Seen.{new_client};
ghost use Rattle.sv_client.specs.Traces.{joins};
ghost use Rattle.sv_scenario.specs.Sessions.{cuts_in};
ghost use Rattle.sv_script.specs.Following.{must_join};
ghost use Rattle.sv_player.specs.Going.{IsGoing, IsNew, MayPlay};
ghost use Rattle.sv_player.specs.Sessions.{IsFresh, IsSameEnd};
ghost use Rattle.sv_player.specs.Ends.{IsPlayedNext, NextCause, AreKept, IsClosedEnd, HasPlayed};
ghost use Rattle.sv_player.specs.Played.{IsTraceOf, HasFollowed, AreDone, IsCause, IsExact, lines_told};

use crate::outcome::{PlayerCause, PlayerOut, SessionEnd};
use crate::playing::Player;
use crate::telling::seen_now;
use std::alloc::Global;
use sv_client::Client;
use sv_link::End;
use sv_scenario::Step;
use sv_watch::Watch;

/// A client and its script, over the ends of its sessions, in their order.
#[derive(Drop)]
pub struct Role<'a, E> {
    pub alloc: Global,
    pub client: Client,
    pub script: &'a [Step],
    /// The number of its first session.
    pub first: u16,
    pub ends: Vec<E>,
}

impl<'a> Player<'a> {
    /// Plays its first or next session over an end, which is closed where the session is cut. Why the player stopped, if it did.
    fn play_next<E: End>(&mut self, watch: Option<&Watch>, end: &mut E) -> Option<PlayerCause>
        requires watch { IfSome watch (λ w. w.now.shape ≡ self.old.client.who.shape) }
        requires watched { self.old.watched ≡ is_some watch }
        requires going { IsGoing self.old }
        requires needed { must_join self.old.client.events ≡ true }
        requires few { joins self.old.client.events < most_sessions }
        requires fresh { IsFresh (E.told end.old) }
        ensures next { IsPlayedNext result (joins self.old.client.events) self.old self.new (E.told end.new) }
        ensures end { IsSameEnd (E.told end.old) (E.told end.new) }
        ensures cause { NextCause (E.faults end.old) (E.faults end.new) result }
        ensures calm { E.calm end.old → E.calm end.new }
    {
        match self.play_session(watch, end) {
            Ok(SessionEnd::Cut) => {
                end.close();
                None
            }
            Ok(SessionEnd::Quit) => Some(PlayerCause::Quit),
            Ok(SessionEnd::Left) => Some(PlayerCause::Finished),
            Err(cause) => Some(cause),
        }
    }

    /// Plays its sessions, each over the end at its place.
    fn play<E: End>(&mut self, watch: Option<&Watch>, ends: &mut [E]) -> PlayerCause
        requires watch { IfSome watch (λ w. w.now.shape ≡ self.old.client.who.shape) }
        requires watched { self.old.watched ≡ is_some watch }
        requires going { IsGoing self.old }
        requires new { self.old.client.events ≡ [] }
        // There is one end for each of its sessions.
        requires count { length ends.old ≡ 1 + cuts_in self.old.script.now }
        requires few { length ends.old ≤ most_sessions }
        requires fresh { AllByRecursion (λ end. IsFresh (E.told end)) ends.old }
        ensures { HasPlayed E.told E.faults E.calm self.old self.new ends.old ends.new result }
    {
        for place in 0..ends.len() {
            if let Some(cause) = self.play_next(watch, &mut ends[place]) {
                return cause;
            }
        }
        unreachable!()
    }

    /// Sees what it sees at first, where somebody watches, and plays its sessions, each over the end at its place.
    fn start<E: End>(&mut self, watch: Option<&Watch>, ends: &mut [E]) -> PlayerCause
        requires watch { IfSome watch (λ w. w.now.shape ≡ self.old.client.who.shape) }
        requires watched { self.old.watched ≡ is_some watch }
        requires new { IsNew self.old }
        requires count { length ends.old ≡ 1 + cuts_in self.old.script.now }
        requires few { length ends.old ≤ most_sessions }
        requires fresh { AllByRecursion (λ end. IsFresh (E.told end)) ends.old }
        ensures { HasPlayed E.told E.faults E.calm self.old self.new ends.old ends.new result }
    {
        if self.watched {
            match seen_now(self.alloc, &self.client) {
                Ok(seen) => self.seen = seen,
                Err(_) => return PlayerCause::Memory,
            }
        }
        self.play(watch, ends)
    }
}

/// Closes all ends.
fn close_all<E: End>(ends: &mut [E])
    ensures { AreKept (λ n. IsClosedEnd E.told E.faults E.calm) ends.old ends.new }
{
    for place in 0..ends.len() {
        ends[place].close();
    }
}

/// Plays a client's script over the ends of its sessions, until it is finished or something stops it. It closes all ends.
///
/// It waits for a reply only where its next step can't be done yet. Where a watch is given, it makes the line of each change of a view; else
/// nobody is told of any.
pub fn play_client<E: End>(role: Role<'_, E>, watch: Option<&Watch>) -> PlayerOut<E>
    // The client did nothing yet, and the script keeps the rules of a scenario for its world.
    requires client { role.client ≡ new_client role.client.who.client role.client.who.shape role.client.who.interest }
    requires script { MayPlay role.client.who role.script.now }
    requires watch { IfSome watch (λ w. w.now.shape ≡ role.client.who.shape) }
    // There is one end for each of its sessions, which are numbered from `first`, and nothing was sent or received over them.
    requires count { length role.ends.items ≡ 1 + cuts_in role.script.now }
    requires numbers { role.first + length role.ends.items ≤ most_sessions }
    requires fresh { AllByRecursion (λ end. IsFresh (E.told end)) role.ends.items }
    ensures trace { IsTraceOf role.entry.client role.entry.first result.trace }
    ensures follows { HasFollowed role.entry.client.who.shape role.entry.script.now result.trace result.cause }
    ensures ends { AreDone E.told E.faults E.calm result.trace result.cause role.entry.first role.entry.ends.items result.ends.items }
    ensures lines { result.cause ≢ PlayerCause.Memory → result.lines.items ≡ lines_told (is_some watch.entry) result.trace }
    ensures cause { IsCause E.told E.faults E.calm role.entry.client.who.shape result.trace role.entry.first role.entry.ends.items result.ends.items result.cause }
    ensures exact { IsExact result.trace result.cause }
{
    let Role {
        alloc,
        client,
        script,
        first,
        mut ends,
    } = role;
    let mut player = Player {
        alloc,
        client,
        first,
        script,
        left: script,
        watched: watch.is_some(),
        seen: Vec::new(alloc),
        lines: Vec::new(alloc),
        count: 0,
    };
    let cause = player.start(watch, &mut ends);
    close_all(&mut ends);
    let Player { client, lines, .. } = player;
    PlayerOut {
        cause,
        trace: client.into_trace(first),
        lines,
        ends,
    }
}
