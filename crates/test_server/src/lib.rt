//! Tests of the journal and of the sequencer, by their public calls alone: the worked examples, each refusal, and journals of arbitrary requests.
#![tactic(auto)]

#[cfg(test)]
mod journal;
#[cfg(test)]
mod sequencer;
