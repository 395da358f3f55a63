//! What is left of a text, and the token that stands next.

ghost use Rattle.std.specs.Prelude.{◌≡◌, ◌^◌, ◌<◌, ◌≤ℤ◌, length, IfOk};
ghost use Rattle.sv_text.specs.Tokens.{tokens_of};
ghost use Rattle.sv_text.specs.Ahead.{next_of};
ghost use Rattle.sv_text.specs.Reading.{seen, is_same, front_of, mark_of, cause_of, front, is_at, rest_of, fault, unexpected, expect, number_at};

use crate::lexer::{go_ahead, is_word, nothing_ahead};
use crate::token::{Ahead, Left, Lexeme, Mark, Token};
use crate::{TextCause, TextFault};
use std::marker::Model;

/// The tokens that are left of a text, each cut when it is reached.
#[derive(Drop)]
pub struct Cursor<'a> {
    bytes: &'a [u8],
    ahead: Ahead,
}

impl<'a> Model for Cursor<'a> {
    ghost use Rattle.std.specs.Prelude.{List};
    ghost use Rattle.sv_text.specs.declared.token.Lexeme.{Lexeme};

    ghost Value = { List Lexeme };

    ghost use Rattle.sv_text.specs.Ahead.{held, IsAhead};

    ghost view = { λ c. held c.bytes.now c.ahead };

    ghost invariant = { λ c. IsAhead c.bytes.now c.ahead };
}

#[tactic(auto, unfolding(crate::specs::Reading::is_same))]
fn is_same(mark: Mark, other: Mark) -> bool
    ensures { result ≡ is_same mark other }
{
    mark as u8 == other as u8
}

fn front_of(next: &Lexeme) -> Option<Mark>
    ensures { result ≡ front_of next.now.glued (mark_of next.now.token) }
{
    match next.token {
        Token::Mark(mark) if next.glued && is_word(mark) => None,
        Token::Mark(mark) => Some(mark),
        Token::Number(_) | Token::Wide | Token::Ref { .. } | Token::Bad(_) => None,
    }
}

fn cause_of(token: Token) -> TextCause
    ensures { result ≡ cause_of token }
{
    match token {
        Token::Bad(cause) => cause,
        Token::Number(_) | Token::Wide | Token::Ref { .. } | Token::Mark(_) => TextCause::Expected,
    }
}

impl<'a> Cursor<'a> {
    /// All tokens of a text.
    #[tactic(auto, using(crate::proofs::Lexing::starts))]
    pub fn new(bytes: &'a [u8]) -> Cursor<'a>
        requires { length bytes.now < 2 ^ 32 }
        ensures { result ≡ tokens_of bytes.now }
    {
        let mut ahead = nothing_ahead();
        go_ahead(bytes, &mut ahead);
        Cursor { bytes, ahead }
    }

    /// Goes behind the next token.
    #[tactic(auto, unfolding(crate::specs::Ahead::held))]
    pub fn advance(&mut self)
        ensures { self.new ≡ rest_of self.old }
    {
        match self.ahead.left {
            Left::Tokens => go_ahead(self.bytes, &mut self.ahead),
            Left::End | Left::Nothing => self.ahead = nothing_ahead(),
        }
    }

    /// The next token, or one that may stand nowhere.
    #[tactic(auto, unfolding(crate::specs::Ahead::held))]
    pub fn next(&self) -> &Lexeme
        ensures { result.now ≡ next_of self.now }
    {
        &self.ahead.next
    }

    #[tactic(auto, using(crate::proofs::Next::place_is))]
    pub fn fault(&self, cause: TextCause) -> TextFault
        ensures { result ≡ fault self.now cause }
    {
        TextFault {
            place: self.next().place,
            cause,
        }
    }

    /// The word or sign that stands next, unless it is a word that directly follows a word or number.
    #[tactic(auto, using(crate::proofs::Next::front_is))]
    pub fn front(&self) -> Option<Mark>
        ensures { result ≡ front self.now }
    {
        front_of(self.next())
    }

    #[tactic(auto, unfolding(crate::specs::Reading::is_at))]
    pub fn is_at(&self, mark: Mark) -> bool
        ensures { result ≡ is_at mark self.now }
    {
        match self.front() {
            Some(next) => is_same(next, mark),
            None => false,
        }
    }

    /// The fault of a token that the grammar does not have here.
    #[tactic(auto, using(crate::proofs::Next::unexpected_is))]
    pub fn unexpected(&self) -> TextFault
        ensures { result ≡ unexpected self.now }
    {
        self.fault(cause_of(self.next().token))
    }

    /// Goes behind a word or sign that has to stand next.
    #[tactic(auto, unfolding(crate::specs::Reading::expect))]
    pub fn expect(&mut self, mark: Mark) -> Result<(), TextFault>
        ensures { seen (λ _. self.new) result ≡ expect mark self.old }
    {
        if self.is_at(mark) {
            self.advance();
            Ok(())
        } else {
            Err(self.unexpected())
        }
    }

    /// The number that stands next, from `low` to `high`. It may not directly follow a word or number.
    #[tactic(auto, using(crate::proofs::Next::number_at_is))]
    pub fn number_at(&self, low: i64, high: i64) -> Result<i64, TextFault>
        ensures value { result ≡ number_at low high self.now }
        ensures low { IfOk result (λ z. low ≤ℤ z) }
        ensures high { IfOk result (λ z. z ≤ℤ high) }
    {
        let next = self.next();
        match next.token {
            Token::Number(number) if low <= number && number <= high => {
                if next.glued {
                    Err(self.fault(TextCause::Expected))
                } else {
                    Ok(number)
                }
            }
            Token::Number(_) | Token::Wide => Err(self.fault(TextCause::Number)),
            Token::Ref { .. } | Token::Mark(_) => Err(self.fault(TextCause::Expected)),
            Token::Bad(cause) => Err(self.fault(cause)),
        }
    }
}
