//! Conditions. Depth is how deep a node may go that starts here.

ghost use Rattle.std.specs.Prelude.{◌≡◌, ◌≤◌, length, OnOk};
ghost use Rattle.sv_world.specs.Limits.{most_reads, most_nodes};
ghost use Rattle.sv_world.specs.Spelled.{cond_spelled};
ghost use Rattle.sv_text.specs.Reading.{Gives, comparison_of, comparison_at, joint_of, joint_at, compare_by, join_by, not_by, expr_at, cond_at, appended};

use crate::cursor::Cursor;
use crate::expression::{Parser, expr_at, start};
use crate::token::Mark;
use crate::{ParseFault, TextFault};
use sv_world::{Comparison, Connective, Node, ObjectId};

fn comparison_of(mark: Mark) -> Option<Comparison>
    ensures { result ≡ comparison_of mark }
{
    match mark {
        Mark::Equal => Some(Comparison::Eq),
        Mark::Less => Some(Comparison::Lt),
        Mark::LessEqual => Some(Comparison::Le),
        _ => None,
    }
}

#[tactic(auto, unfolding(crate::specs::Reading::comparison_at))]
fn comparison_at(cursor: &Cursor<'_>) -> Result<Comparison, TextFault>
    ensures { result ≡ comparison_at cursor.now }
{
    match cursor.front() {
        None => Err(cursor.unexpected()),
        Some(mark) => match comparison_of(mark) {
            None => Err(cursor.unexpected()),
            Some(comparison) => Ok(comparison),
        },
    }
}

fn joint_of(mark: Mark) -> Option<Connective>
    ensures { result ≡ joint_of mark }
{
    match mark {
        Mark::And => Some(Connective::And),
        Mark::Or => Some(Connective::Or),
        _ => None,
    }
}

#[tactic(auto, unfolding(crate::specs::Reading::joint_at))]
fn joint_at(cursor: &Cursor<'_>) -> Result<Connective, TextFault>
    ensures { result ≡ joint_at cursor.now }
{
    match cursor.front() {
        None => Err(cursor.unexpected()),
        Some(mark) => match joint_of(mark) {
            None => Err(cursor.unexpected()),
            Some(joint) => Ok(joint),
        },
    }
}

// As at an expression, the place of what stands between the parts is kept open until it is read.
#[tactic(auto, using(crate::proofs::Flat::compare_appended, crate::proofs::Flat::appended_longer))]
fn compare_at(parser: &mut Parser<'_>, reads: &[ObjectId], depth: u8) -> Result<(), ParseFault>
    requires { length reads.now ≤ most_reads }
    ensures gives { Gives (λ _. (parser.new.out.items, parser.new.started, parser.new.cursor)) result (appended cond_spelled parser.old.out.items (compare_by (expr_at reads.now depth) parser.old.started parser.old.cursor)) }
    ensures few { OnOk result (parser.new.started ≤ most_nodes) }
    ensures longer { OnOk result (length parser.old.out.items ≤ length parser.new.out.items) }
{
    let place = parser.out.len();
    parser.out.push(Node::Not)?;
    expr_at(parser, reads, depth)?;
    let comparison = comparison_at(&parser.cursor)?;
    parser.cursor.advance();
    expr_at(parser, reads, depth)?;
    parser.cursor.expect(Mark::CloseTest)?;
    parser.out[place] = Node::Compare(comparison);
    Ok(())
}

#[cycle(condition)]
#[tactic(auto, using(crate::proofs::Depth::cond_at_is, crate::proofs::Flat::cond_appended))]
pub fn cond_at(parser: &mut Parser<'_>, reads: &[ObjectId], depth: u8) -> Result<(), ParseFault>
    requires { length reads.now ≤ most_reads }
    ensures gives { Gives (λ _. (parser.new.out.items, parser.new.started, parser.new.cursor)) result (appended cond_spelled parser.old.out.items (cond_at reads.now depth parser.old.started parser.old.cursor)) }
    ensures few { OnOk result (parser.new.started ≤ most_nodes) }
    ensures longer { OnOk result (length parser.old.out.items ≤ length parser.new.out.items) }
{
    if parser.cursor.is_at(Mark::OpenTest) {
        parser.started = start(parser, depth)?;
        parser.cursor.advance();
        return compare_at(parser, reads, depth - 1);
    }
    if parser.cursor.is_at(Mark::Open) {
        parser.started = start(parser, depth)?;
        parser.cursor.advance();
        return join_at(parser, reads, depth - 1);
    }
    if parser.cursor.is_at(Mark::Not) {
        parser.started = start(parser, depth)?;
        parser.cursor.advance();
        return not_at(parser, reads, depth - 1);
    }
    Err(ParseFault::Text(parser.cursor.unexpected()))
}

#[cycle(condition)]
#[tactic(auto, using(crate::proofs::Flat::join_appended, crate::proofs::Flat::appended_longer))]
fn join_at(parser: &mut Parser<'_>, reads: &[ObjectId], depth: u8) -> Result<(), ParseFault>
    requires { length reads.now ≤ most_reads }
    ensures gives { Gives (λ _. (parser.new.out.items, parser.new.started, parser.new.cursor)) result (appended cond_spelled parser.old.out.items (join_by (cond_at reads.now depth) parser.old.started parser.old.cursor)) }
    ensures few { OnOk result (parser.new.started ≤ most_nodes) }
    ensures longer { OnOk result (length parser.old.out.items ≤ length parser.new.out.items) }
{
    let place = parser.out.len();
    parser.out.push(Node::Not)?;
    cond_at(parser, reads, depth)?;
    let joint = joint_at(&parser.cursor)?;
    parser.cursor.advance();
    cond_at(parser, reads, depth)?;
    parser.cursor.expect(Mark::Close)?;
    parser.out[place] = Node::Join(joint);
    Ok(())
}

#[cycle(condition)]
#[tactic(auto, using(crate::proofs::Flat::not_appended))]
fn not_at(parser: &mut Parser<'_>, reads: &[ObjectId], depth: u8) -> Result<(), ParseFault>
    requires { length reads.now ≤ most_reads }
    ensures gives { Gives (λ _. (parser.new.out.items, parser.new.started, parser.new.cursor)) result (appended cond_spelled parser.old.out.items (not_by (cond_at reads.now depth) parser.old.started parser.old.cursor)) }
    ensures few { OnOk result (parser.new.started ≤ most_nodes) }
    ensures longer { OnOk result (length parser.old.out.items ≤ length parser.new.out.items) }
{
    parser.out.push(Node::Not)?;
    cond_at(parser, reads, depth)
}
