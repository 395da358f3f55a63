//! Tests of the client, and of a pilot over an end that gives what was scripted, by their public calls alone.
#![tactic(auto)]

#[cfg(test)]
mod client;
#[cfg(test)]
mod pilot;
