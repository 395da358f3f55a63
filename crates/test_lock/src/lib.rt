//! Tests of the lock by its public calls: threads that add to a counter, nested passes, calls without memory, and locks that are let go; and
//! of what stands between the crates and the system.
#![tactic(auto)]

#[cfg(test)]
mod counter;
#[cfg(test)]
mod hostile;
#[cfg(test)]
mod threads;
