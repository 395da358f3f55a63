//! Expressions. Depth is how deep a node may go that starts here.

ghost use Rattle.std.specs.Prelude.{◌≡◌, ◌≤◌, ◌<◌, [], ◌∷◌, length, IfOk, OnOk};
ghost use Rattle.sv_world.specs.Limits.{most_reads, most_nodes};
ghost use Rattle.sv_world.specs.Spelled.{expr_spelled};
ghost use Rattle.sv_text.specs.Reading.{Gives, seen, start, op_of, op_at, leaf_at, pair_by, expr_at, appended};

use crate::cursor::Cursor;
use crate::header::slot_at;
use crate::token::{Mark, Token};
use crate::{ParseFault, TextCause, TextFault};
use sv_world::{MOST_NODES, Node, ObjectId, Operator};

/// A body that is being read.
#[derive(Drop)]
pub struct Parser<'a> {
    /// What is left of the text.
    pub cursor: Cursor<'a>,
    /// The nodes so far.
    pub out: Vec<Node>,
    /// How many of the language's nodes were started so far. A block is none of them.
    pub started: usize,
}

/// Starts a node, and counts it.
#[tactic(auto, unfolding(crate::specs::Reading::start))]
pub fn start(parser: &Parser<'_>, depth: u8) -> Result<usize, TextFault>
    ensures value { result ≡ start depth parser.now.started parser.now.cursor }
    ensures few { IfOk result (λ n. n ≤ most_nodes) }
    ensures deep { OnOk result (0 < depth) }
{
    if parser.started >= MOST_NODES as usize {
        return Err(parser.cursor.fault(TextCause::TooLarge));
    }
    if depth == 0 {
        return Err(parser.cursor.fault(TextCause::TooDeep));
    }
    Ok(parser.started + 1)
}

fn op_of(mark: Mark) -> Option<Operator>
    ensures { result ≡ op_of mark }
{
    match mark {
        Mark::Plus => Some(Operator::Add),
        Mark::Minus => Some(Operator::Sub),
        Mark::Times => Some(Operator::Mul),
        Mark::Divide => Some(Operator::Div),
        Mark::Remainder => Some(Operator::Rem),
        Mark::Min => Some(Operator::Min),
        Mark::Max => Some(Operator::Max),
        _ => None,
    }
}

#[tactic(auto, unfolding(crate::specs::Reading::op_at))]
fn op_at(cursor: &Cursor<'_>) -> Result<Operator, TextFault>
    ensures { result ≡ op_at cursor.now }
{
    match cursor.front() {
        None => Err(cursor.unexpected()),
        Some(mark) => match op_of(mark) {
            None => Err(cursor.unexpected()),
            Some(op) => Ok(op),
        },
    }
}

/// A literal, or the attribute of an object that is read.
#[tactic(auto, using(crate::proofs::Flat::leaf_seen))]
fn leaf_at(reads: &[ObjectId], cursor: &Cursor<'_>) -> Result<Node, TextFault>
    requires { length reads.now ≤ most_reads }
    ensures { seen (λ n. n ∷ []) result ≡ seen expr_spelled (leaf_at reads.now cursor.now) }
{
    let next = cursor.next();
    match next.token {
        Token::Number(_) if next.glued => Err(cursor.fault(TextCause::Expected)),
        Token::Number(number) => Ok(Node::Lit(number)),
        Token::Wide => Err(cursor.fault(TextCause::Number)),
        Token::Ref { object, attr } => {
            let slot = slot_at(reads, object, cursor)?;
            Ok(Node::Attr { slot, attr })
        }
        Token::Mark(_) => Err(cursor.fault(TextCause::Expected)),
        Token::Bad(cause) => Err(cursor.fault(cause)),
    }
}

#[cycle(expression)]
#[tactic(auto, using(crate::proofs::Depth::expr_at_is, crate::proofs::Flat::expr_appended, crate::proofs::Flat::appended_longer))]
pub fn expr_at(parser: &mut Parser<'_>, reads: &[ObjectId], depth: u8) -> Result<(), ParseFault>
    requires { length reads.now ≤ most_reads }
    ensures gives { Gives (λ _. (parser.new.out.items, parser.new.started, parser.new.cursor)) result (appended expr_spelled parser.old.out.items (expr_at reads.now depth parser.old.started parser.old.cursor)) }
    ensures few { OnOk result (parser.new.started ≤ most_nodes) }
    ensures longer { OnOk result (length parser.old.out.items ≤ length parser.new.out.items) }
{
    if parser.cursor.is_at(Mark::Open) {
        parser.started = start(parser, depth)?;
        parser.cursor.advance();
        return pair_at(parser, reads, depth - 1);
    }
    let leaf = leaf_at(reads, &parser.cursor)?;
    parser.started = start(parser, depth)?;
    parser.cursor.advance();
    parser.out.push(leaf)?;
    Ok(())
}

// The operator's place is kept open until the operator is read.
#[cycle(expression)]
#[tactic(auto, using(crate::proofs::Flat::pair_appended, crate::proofs::Flat::appended_longer))]
fn pair_at(parser: &mut Parser<'_>, reads: &[ObjectId], depth: u8) -> Result<(), ParseFault>
    requires { length reads.now ≤ most_reads }
    ensures gives { Gives (λ _. (parser.new.out.items, parser.new.started, parser.new.cursor)) result (appended expr_spelled parser.old.out.items (pair_by (expr_at reads.now depth) parser.old.started parser.old.cursor)) }
    ensures few { OnOk result (parser.new.started ≤ most_nodes) }
    ensures longer { OnOk result (length parser.old.out.items ≤ length parser.new.out.items) }
{
    let place = parser.out.len();
    parser.out.push(Node::Not)?;
    expr_at(parser, reads, depth)?;
    let operator = op_at(&parser.cursor)?;
    parser.cursor.advance();
    expr_at(parser, reads, depth)?;
    parser.cursor.expect(Mark::Close)?;
    parser.out[place] = Node::Binary(operator);
    Ok(())
}
