//! From a text to its action.

ghost use Rattle.std.specs.Prelude.{◌≡◌, ◌≤◌, ◌<◌, ◌^◌, length, Ok, IfOk};
ghost use Rattle.sv_world.specs.Limits.{most_reads};
ghost use Rattle.sv_world.specs.declared.action.Action.{Action};
ghost use Rattle.sv_text.specs.Grammar.{IsActionText};
ghost use Rattle.sv_text.specs.Tokens.{tokens_of};
ghost use Rattle.sv_text.specs.Reading.{Gives, body_at, reading};

use crate::ParseFault;
use crate::cursor::Cursor;
use crate::expression::Parser;
use crate::header::{header_at, origin_at, writes_at};
use crate::statement::block_at;
use crate::token::Mark;
use std::alloc::Global;
use sv_world::{Action, Body, MOST_DEPTH, MOST_NODES, ObjectId};

#[tactic(auto, using(crate::proofs::Flat::body_found), unfolding(crate::specs::Reading::body_at))]
fn body_at(alloc: Global, reads: &[ObjectId], cursor: Cursor<'_>) -> Result<Body, ParseFault>
    requires { length reads.now ≤ most_reads }
    ensures { Gives (λ body. body) result (body_at reads.now cursor.entry) }
{
    // Room for the most nodes but for those of blocks, so that one vector mostly suffices, which becomes the body's list.
    let mut parser = Parser {
        cursor,
        out: Vec::with_capacity(alloc, MOST_NODES as usize)?,
        started: 0,
    };
    block_at(&mut parser, reads, MOST_DEPTH)?;
    parser.cursor.expect(Mark::End)?;
    Ok(Body::from_nodes(parser.out)?)
}

#[tactic(auto, unfolding(crate::specs::Reading::reading))]
fn action_at(alloc: Global, mut cursor: Cursor<'_>) -> Result<Action, ParseFault>
    ensures { Gives (λ action. action) result (reading cursor.entry) }
{
    let reads = header_at(alloc, &mut cursor)?;
    let mask = writes_at(reads.as_slice(), &mut cursor)?;
    let origin = origin_at(&mut cursor)?;
    let body = body_at(alloc, reads.as_slice(), cursor)?;
    Ok(Action {
        reads,
        mask,
        origin,
        body,
    })
}

fn read_action(alloc: Global, text: &str) -> Result<Action, ParseFault>
    requires { length text.now < 2 ^ 32 }
    ensures { Gives (λ action. action) result (reading (tokens_of text.now)) }
{
    action_at(alloc, Cursor::new(text.as_bytes()))
}

/// The action that a text writes.
///
/// The text is a list of tokens: numbers, refs such as `@2.0` (object 2, attribute 0), words and signs. It is read from left to right,
/// and refused at the first token that may not stand at its place; the end of the text counts as a token. At most 16 objects are read,
/// and a body has at most 64 nodes, none of which has 8 nodes above it.
pub fn parse_action(alloc: Global, text: &str) -> Result<Action, ParseFault>
    requires { length text.now < 2 ^ 32 }

    // What is read is an action that the text is a text of.
    ensures found { IfOk result (λ action. IsActionText action (tokens_of text.now)) }
    // An action that the text is a text of is read, unless memory runs out.
    ensures only { (action : Action) → IsActionText action (tokens_of text.now) → Gives (λ a. a) result (Ok action) }
    // Which fault it is.
    ensures exact { Gives (λ a. a) result (reading (tokens_of text.now)) }
{
    read_action(alloc, text)
}
