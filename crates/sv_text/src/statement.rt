//! Statements and blocks of them. Depth is how deep a node may go that starts here.

ghost use Rattle.std.specs.Prelude.{◌≡◌, ◌≤◌, ◌<◌, length, OnOk};
ghost use Rattle.sv_world.specs.Limits.{most_reads, most_nodes};
ghost use Rattle.sv_world.specs.Spelled.{stmt_spelled, body_spelled};
ghost use Rattle.sv_text.specs.Reading.{Gives, target_at, set_by, else_by, if_by, block_by, expr_at, cond_at, stmt_at, appended};

use crate::condition::cond_at;
use crate::cursor::Cursor;
use crate::expression::{Parser, expr_at, start};
use crate::header::slot_at;
use crate::token::{Mark, Token};
use crate::{ParseFault, TextCause, TextFault};
use sv_world::{MOST_NODES, Node, ObjectId};

/// The slot and attribute of the ref behind `set`, which is no node.
#[tactic(auto, using(crate::proofs::Next::target_at_is))]
fn target_at(reads: &[ObjectId], cursor: &Cursor<'_>) -> Result<(u8, u8), TextFault>
    requires { length reads.now ≤ most_reads }
    ensures { result ≡ target_at reads.now cursor.now }
{
    match cursor.next().token {
        Token::Ref { object, attr } => {
            let slot = slot_at(reads, object, cursor)?;
            Ok((slot, attr))
        }
        Token::Number(_) | Token::Wide | Token::Mark(_) => Err(cursor.fault(TextCause::Expected)),
        Token::Bad(cause) => Err(cursor.fault(cause)),
    }
}

#[tactic(auto, using(crate::proofs::Flat::set_appended))]
fn set_at(parser: &mut Parser<'_>, reads: &[ObjectId], depth: u8) -> Result<(), ParseFault>
    requires { length reads.now ≤ most_reads }
    ensures gives { Gives (λ _. (parser.new.out.items, parser.new.started, parser.new.cursor)) result (appended stmt_spelled parser.old.out.items (set_by reads.now (expr_at reads.now depth) parser.old.started parser.old.cursor)) }
    ensures few { OnOk result (parser.new.started ≤ most_nodes) }
    ensures longer { OnOk result (length parser.old.out.items ≤ length parser.new.out.items) }
{
    let (slot, attr) = target_at(reads, &parser.cursor)?;
    parser.cursor.advance();
    parser.out.push(Node::Set { slot, attr })?;
    expr_at(parser, reads, depth)?;
    parser.cursor.expect(Mark::Semicolon)?;
    Ok(())
}

#[cycle(statement)]
#[tactic(auto, using(crate::proofs::Depth::stmt_at_is, crate::proofs::Flat::stmt_appended))]
fn stmt_at(parser: &mut Parser<'_>, reads: &[ObjectId], depth: u8) -> Result<(), ParseFault>
    requires { length reads.now ≤ most_reads }
    ensures gives { Gives (λ _. (parser.new.out.items, parser.new.started, parser.new.cursor)) result (appended stmt_spelled parser.old.out.items (stmt_at reads.now depth parser.old.started parser.old.cursor)) }
    ensures few { OnOk result (parser.new.started ≤ most_nodes) }
    ensures longer { OnOk result (length parser.old.out.items ≤ length parser.new.out.items) }
{
    if parser.cursor.is_at(Mark::Set) {
        parser.started = start(parser, depth)?;
        parser.cursor.advance();
        return set_at(parser, reads, depth - 1);
    }
    if parser.cursor.is_at(Mark::If) {
        parser.started = start(parser, depth)?;
        parser.cursor.advance();
        return if_at(parser, reads, depth - 1);
    }
    Err(ParseFault::Text(parser.cursor.unexpected()))
}

#[cycle(statement)]
#[tactic(auto, using(crate::proofs::Flat::if_appended))]
fn if_at(parser: &mut Parser<'_>, reads: &[ObjectId], depth: u8) -> Result<(), ParseFault>
    requires { length reads.now ≤ most_reads }
    ensures gives { Gives (λ _. (parser.new.out.items, parser.new.started, parser.new.cursor)) result (appended stmt_spelled parser.old.out.items (if_by (cond_at reads.now depth) (block_by (stmt_at reads.now depth)) parser.old.started parser.old.cursor)) }
    ensures few { OnOk result (parser.new.started ≤ most_nodes) }
    ensures longer { OnOk result (length parser.old.out.items ≤ length parser.new.out.items) }
{
    parser.out.push(Node::If)?;
    cond_at(parser, reads, depth)?;
    block_at(parser, reads, depth)?;
    else_at(parser, reads, depth)
}

/// The block behind `else`, and an empty one where there is none.
#[cycle(statement)]
#[tactic(auto, using(crate::proofs::Flat::else_appended))]
fn else_at(parser: &mut Parser<'_>, reads: &[ObjectId], depth: u8) -> Result<(), ParseFault>
    requires reads { length reads.now ≤ most_reads }
    requires few { parser.old.started ≤ most_nodes }
    ensures gives { Gives (λ _. (parser.new.out.items, parser.new.started, parser.new.cursor)) result (appended body_spelled parser.old.out.items (else_by (block_by (stmt_at reads.now depth)) parser.old.started parser.old.cursor)) }
    ensures few { OnOk result (parser.new.started ≤ most_nodes) }
    ensures longer { OnOk result (length parser.old.out.items ≤ length parser.new.out.items) }
{
    if parser.cursor.is_at(Mark::Else) {
        parser.cursor.advance();
        return block_at(parser, reads, depth);
    }
    parser.out.push(Node::Block { count: 0, size: 0 })?;
    Ok(())
}

/// Statements up to the end of their block, of which the first place tells at its end how many they are. Each starts a node, so one more
/// than a body may have is refused.
#[cycle(statement)]
#[tactic(auto, using(crate::proofs::Flat::block_appended))]
pub fn block_at(parser: &mut Parser<'_>, reads: &[ObjectId], depth: u8) -> Result<(), ParseFault>
    requires reads { length reads.now ≤ most_reads }
    requires few { parser.old.started ≤ most_nodes }
    ensures gives { Gives (λ _. (parser.new.out.items, parser.new.started, parser.new.cursor)) result (appended body_spelled parser.old.out.items (block_by (stmt_at reads.now depth) parser.old.started parser.old.cursor)) }
    ensures few { OnOk result (parser.new.started ≤ most_nodes) }
    ensures longer { OnOk result (length parser.old.out.items ≤ length parser.new.out.items) }
{
    parser.cursor.expect(Mark::OpenBlock)?;
    let place = parser.out.len();
    parser.out.push(Node::Block { count: 0, size: 0 })?;
    for count in 0..MOST_NODES + 1 {
        if parser.cursor.is_at(Mark::CloseBlock) {
            parser.cursor.advance();
            let size = parser.out.len() - place - 1;
            parser.out[place] = Node::Block { count, size };
            return Ok(());
        }
        stmt_at(parser, reads, depth)?;
    }
    Err(ParseFault::Text(parser.cursor.fault(TextCause::TooLarge)))
}
