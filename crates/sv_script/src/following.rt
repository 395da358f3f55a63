//! Laws of traces that follow a script.
ghost use Rattle.sv_script.specs.Examples.{ExamplesFollow};
ghost use Rattle.sv_script.specs.Laws.{BeginningsFollow, BeginningsOfTracesFollow, StepsAreDoneInOrder, EndsDoAllSteps, EventsAreFew, EventsOfTracesAreFew};
ghost use Rattle.sv_script.specs.Laws.{JoinsComeWhereNeeded, StepsWaitForTheWelcome, LeavesWaitForTheWelcome, SyncsWaitForReplies};
ghost use Rattle.sv_script.specs.Laws.{CutsBringAJoin, JoinsBringAReply, NothingFollowsAQuit, NothingFollowsABye};

/// A beginning of a trace that follows a script follows it, and leaves as many steps or more.
pub fn beginnings_follow()
    ensures events { BeginningsFollow }
    ensures traces { BeginningsOfTracesFollow }
{}

/// The events of a trace that are no Join, Got or Leave are the first steps of its script, syncs left out, in order; at the script's end they
/// are all of them.
pub fn steps_are_done_in_order()
    ensures begun { StepsAreDoneInOrder }
    ensures whole { EndsDoAllSteps }
{}

/// A trace that follows a script of at most 256 steps has at most 2,048 events over all its sessions: 256 that do steps, 64 Joins, at most as
/// many Leaves, and 1,664 replies. For each action, each Poll and each Observe brings at most two replies, and each Join one, and at most 16 for the actions
/// that are pending.
///
/// So numbers of events and counts of requests fit 32 bits wherever a script is followed.
pub fn events_are_few()
    ensures events { EventsAreFew }
    ensures traces { EventsOfTracesAreFew }
{}

/// Each event has its place: a Join stands first and directly after each Cut, and nowhere else; directly after a Join stands the Welcome; a
/// step, and the Leave, stand after the Welcome of their session; the step after a sync stands where nothing is outstanding; and nothing stands
/// after a Quit or a Bye.
pub fn events_have_their_places()
    ensures joins { JoinsComeWhereNeeded }
    ensures cuts { CutsBringAJoin }
    ensures first { JoinsBringAReply }
    ensures welcome { StepsWaitForTheWelcome }
    ensures leave { LeavesWaitForTheWelcome }
    ensures sync { SyncsWaitForReplies }
    ensures quit { NothingFollowsAQuit }
    ensures bye { NothingFollowsABye }
{}

/// The definition of following allows the worked examples, and refuses a show that does not wait at its sync.
pub fn examples_follow()
    ensures { ExamplesFollow }
{}
