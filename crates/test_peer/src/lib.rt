//! Tests of connections in memory, of one connection, and of what HTTP requests get, by their public calls alone.
#![tactic(auto)]

#[cfg(test)]
mod frames;
#[cfg(test)]
mod pages;
#[cfg(test)]
mod ports;
#[cfg(test)]
mod shared;
#[cfg(test)]
mod sockets;
