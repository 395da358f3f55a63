//! What a seat at the table knows. No value of these types is ever made.
use std::collections::LinkedList;

/// Whether a seat holds the object.
pub enum Stage {
    Idle,
    Holds,
}

pub struct SeatView<B, E> {
    /// None where another seat took this one in.
    pub base: Option<B>,
    pub stage: Stage,
    pub seen: LinkedList<E>,
    /// What the seat that was taken in last had seen.
    pub told: LinkedList<E>,
    /// The numbers that the seat stands for, each with its entries.
    pub lists: LinkedList<(u16, LinkedList<E>)>,
    /// It is the keeper's.
    pub keeps: bool,
    /// How many passes the keeper made.
    pub made: u16,
}
