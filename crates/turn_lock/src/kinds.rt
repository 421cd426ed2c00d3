//! The rule of the table, and the kinds of atomic step on it.
ghost use Rattle.std.specs.Prelude.{ℕ};
ghost use Rattle.turn_lock.specs.Rule.{Kept};
ghost use Rattle.turn_lock.specs.Seats.{opened_seat, kept_seat, new_seat, joined_seat, spent_seat};
ghost use Rattle.turn_lock.specs.Steps.{draws, looks, serves, tells};

use crate::lock::Logged;
use crate::views::SeatView;
use atomic_table::{Join, Play, Split, TableRule};
use std::marker::{Brand, PhantomData};
use std::snapshot::Snapshot;

/// What a lock is made with.
#[derive(Drop)]
pub struct Opening<T> {
    pub value: Snapshot<T>,
    pub turns: u64,
}

/// The rule of a lock's table.
pub struct InTurn<T> {
    of: PhantomData<T>,
}

impl<T: Logged> TableRule<Option<T>, SeatView<T::Entry>, Opening<T>> for InTurn<T> {
    ghost holds = { λ _. Kept T.list T.answers };

    ghost first = { λ o. opened_seat (T.list o.value.value) o.turns };
}

/// To draw a ticket.
pub struct Draw;

impl<T, E> Play<Option<T>, SeatView<E>> for Draw {
    ghost then = { draws };
}

/// To look at the number that is served.
pub struct Look<T> {
    of: PhantomData<T>,
}

impl<T: Logged> Play<Option<T>, SeatView<T::Entry>> for Look<T> {
    ghost then = { looks T.list T.answers };
}

/// To write the entry and serve the next.
pub struct Serve<T> {
    of: PhantomData<T>,
}

impl<T: Logged> Play<Option<T>, SeatView<T::Entry>> for Serve<T> {
    ghost then = { serves T.list };
}

/// To ask what was seen, after a join.
pub struct Tell;

impl<T, E> Play<Option<T>, SeatView<E>> for Tell {
    ghost then = { tells };
}

/// How many turns a new pass gets. A call picks it.
pub trait Amount {
    ghost share: { ℕ };
}

impl Amount for Brand {
    ghost share = { 0 };
}

/// To split a seat.
pub struct Cut<K> {
    of: PhantomData<K>,
}

impl<E, K: Amount> Split<SeatView<E>> for Cut<K> {
    ghost left = { kept_seat K.share };

    ghost right = { new_seat K.share };
}

/// To join two seats.
pub struct Glue;

impl<E> Join<SeatView<E>> for Glue {
    ghost both = { joined_seat };

    ghost spent = { spent_seat };
}
