//! Tests of world files: each refusal with its line, and what a file means.

mod faults;
mod lines;
mod meanings;
mod sizes;
