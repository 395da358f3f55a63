//! Tests of the lines of a living world's log: each is typed by hand, printed from what it tells, and read.

mod causes;
mod check;
mod lines;
mod make;
mod wrong;
