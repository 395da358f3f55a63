//! Tests of the messages' payloads: the vectors of the format and what refuses them; and each vector with one byte left out, added or
//! raised is the message that it then spells, or is refused at the right place. The answers of the second kind come from a table that
//! `tools/edited.py` wrote from the grammar alone. Then frames and exchanges, by their public calls.
#![tactic(auto)]

#[cfg(test)]
mod bodies;
#[cfg(test)]
mod edited;
#[cfg(test)]
mod exchange;
#[cfg(test)]
mod messages;
#[cfg(test)]
mod replies;
#[cfg(test)]
mod requests;
#[cfg(test)]
mod vectors;
