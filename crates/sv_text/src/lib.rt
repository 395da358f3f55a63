//! The action language: reading an action from its text, and printing it.
#![tactic(auto)]

mod condition;
mod cursor;
mod expression;
mod fault;
mod header;
mod laws;
mod lexer;
mod parser;
mod printer;
mod statement;
mod token;

pub use fault::{ParseFault, TextCause, TextFault};
pub use laws::{
    canonical_texts_differ, each_canonical_text_is_read, each_text_of_an_action_is_read,
    what_is_read_is_a_text_of_it,
};
pub use parser::parse_action;
pub use printer::{append_action, print_action, put_action};
