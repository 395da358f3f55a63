//! Tests of links, gates and crews; of doors; and of a session's loop over ends.
#![tactic(auto)]

#[cfg(test)]
mod crews;
#[cfg(test)]
mod door;
#[cfg(test)]
mod gates;
#[cfg(test)]
mod mem_link;
#[cfg(test)]
mod nets;
#[cfg(test)]
mod session;
#[cfg(test)]
mod streams;
#[cfg(test)]
mod tcp;
#[cfg(test)]
mod waiting;
