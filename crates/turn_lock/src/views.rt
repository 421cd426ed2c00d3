//! What the seats of a lock's table know.
use std::collections::LinkedList;

/// Where a seat stands in the queue.
pub enum Stage {
    Idle,
    /// It has a ticket.
    Waits(u64),
    /// It has the turn.
    Has,
}

/// What a seat knows. Contracts speak of it, and no value of it is made.
pub struct SeatView<E> {
    /// It was joined into another seat.
    pub spent: bool,
    pub name: LinkedList<u64>,
    pub left: u64,
    pub seen: LinkedList<E>,
    /// What it had seen before the last join, and what the seat had seen that was joined into it.
    pub own_seen: LinkedList<E>,
    pub other_seen: LinkedList<E>,
    pub mine: LinkedList<(u64, E)>,
    pub made: u64,
    pub out: LinkedList<u64>,
    pub turns: u64,
    pub start: u64,
    pub stage: Stage,
}
