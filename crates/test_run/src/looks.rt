//! Tests of looks and of the call that prints their snapshots, by public calls alone.

mod calls;
mod clients;
mod faults;
mod orders;
mod scenarios;
mod tellings;
