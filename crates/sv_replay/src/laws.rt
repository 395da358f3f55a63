//! What is true of runs over any server, and that a scenario can be run over a sequencer.
ghost use Rattle.sv_replay.specs.Playable.{MadeActionsFit, ScenariosArePlayable};

use law_asked::{accepted_are_few, replies_are_messages, requests_are_messages};

/// A scenario can be run over the server that answers by the table: its runs stay sound, and in a sound one whatever is asked or replied is a
/// message, and no client refuses its next reply.
pub(crate) fn scenarios_are_playable()
    ensures { ScenariosArePlayable }
{
    requests_are_messages();
    replies_are_messages();
    accepted_are_few();
}

/// The actions that the players of a sound run made, over whatever server, have numbers of their types, where the scenario's have.
pub fn made_actions_fit()
    ensures { MadeActionsFit }
{}
