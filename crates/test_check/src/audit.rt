//! Tests of the checker of reports by its words, over files and outputs in memory.

mod calls;
mod words;
