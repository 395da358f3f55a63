//! Tests of the world, the evaluator, the versions, the pending actions and the callbacks, by their public calls alone.
#![tactic(auto)]

#[cfg(test)]
mod bodies;
#[cfg(test)]
mod eval;
#[cfg(test)]
mod pending;
#[cfg(test)]
mod texts;
#[cfg(test)]
mod versions;
#[cfg(test)]
mod watch;
#[cfg(test)]
mod world;
