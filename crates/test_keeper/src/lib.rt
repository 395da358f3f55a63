//! Tests of a living world: its core, the lines of its log, and what is kept in a folder in memory. The lines are typed by hand.
#![tactic(auto)]

#[cfg(test)]
mod crashes;
#[cfg(test)]
mod entries;
#[cfg(test)]
mod lines;
#[cfg(test)]
mod living;
#[cfg(test)]
mod refusals;
#[cfg(test)]
mod runs;
