//! Tests of why objects have their values.

mod calls;
mod rows;
