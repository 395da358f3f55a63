//! Tests of doors.

mod pipes;
mod system;
mod talk;
mod tcp;
