//! Tests of the queue of uncommitted actions and of their influence, by their public calls alone.
#![tactic(auto)]

#[cfg(test)]
mod actions;
#[cfg(test)]
mod calls;
#[cfg(test)]
mod cuts;
#[cfg(test)]
mod drawn;
#[cfg(test)]
mod drawn_cuts;
#[cfg(test)]
mod influence;
#[cfg(test)]
mod queue;
#[cfg(test)]
mod shown;
