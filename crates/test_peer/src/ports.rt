//! Tests of connections in memory.

mod scripts;
