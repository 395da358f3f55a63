//! Tests of the server and its clients, as programs apart that meet at their doors.

mod meetings;
mod programs;
