ghost use Rattle.std.specs.Prelude.{◌≡◌, ◌+◌, ◌<◌, ◌≤◌, ◌^◌, ℕ, List, [], ◌∷◌, ◌++◌, length, Option, Some, IfOk, IfErr, false};
ghost use Rattle.turn_lock.specs.Logs.{In, Rises, StartsWith, IsEarlier, StaysFrom};
ghost use Rattle.turn_lock.specs.Passes.{MayTurn, AppendsOne, Turned, Closed, IsBelow, opened, kept_part, new_part, joined};
ghost use Rattle.turn_lock.specs.Steps.{Entered};
ghost use Rattle.turn_lock.specs.declared.views.Stage.TheVariants.{Idle};

use crate::kinds::{Amount, Cut, Draw, Glue, InTurn, Look, Opening, Serve, Tell};
use crate::views::SeatView;
use crate::waiting::{Looks, Urgency};
use atomic_table::{Refused, Seat, Table};
use fc_values::Memory;
use std::alloc::Global;
use std::hint::spin_loop;
use std::marker::{Brand, Model};
use std::snapshot::Snapshot;
use std::sync::Wait;
use std::sync::atomic::{AtomicU64, Ordering};
use std::time::Duration;

// The part of a word on which a thread can sleep.
fn low_half(word: u64) -> u32 {
    (word & 0xffff_ffff) as u32
}

/// A value that stores a list of entries, to which the turns of a lock append.
pub trait Logged {
    type Entry;

    /// The list of entries that the value stores.
    ghost list: { Self → List Self.Entry };

    /// The position of the earlier entry that the entry at a position answers, if any.
    ghost answers: { List Self.Entry → ℕ → Option ℕ };

    /// It is a position before that entry.
    ghost earlier: { IsEarlier answers };

    /// The entries up to there alone decide it.
    ghost stays: { StaysFrom answers };
}

/// A lock round a value. In contracts it is the identity of its table.
pub struct TurnLock<T: Logged> {
    table: Table<Option<T>, SeatView<T::Entry>, Opening<T>, InTurn<T>, Global>,
    // how many threads sleep until their ticket is served
    asleep: AtomicU64,
}

impl<T: Logged> Model for TurnLock<T> {
    ghost use Rattle.std.specs.Prelude.{◌≡◌};
    ghost use Rattle.atomic_table.specs.Seated.{TableId};

    ghost Value = { TableId };

    ghost view = { λ l. l.table.shared.table_id };

    ghost invariant = { λ l. (l.table.shared.table_id.words ≡ 2) × (l.table.shared.table_id.slots ≡ 1) };
}

/// The right to a number of turns, with what it has seen and what it did.
#[derive(Drop)]
pub struct Pass<T: Logged> {
    left: u64,
    seat: Seat<Option<T>, SeatView<T::Entry>>,
}

impl<T: Logged> Model for Pass<T> {
    ghost use Rattle.std.specs.Prelude.{◌≡◌};
    ghost use Rattle.turn_lock.specs.Passes.{PassView};
    ghost use Rattle.turn_lock.specs.Seats.{pass_view, IsSeated};

    ghost Value = { PassView T.Entry };

    ghost view = { λ p. pass_view p.seat.table_id p.seat.me.0 };

    ghost invariant = { λ p. (p.left ≡ p.seat.me.0.left) × IsSeated p.seat.me };
}

impl<T: Logged> Pass<T> {
    /// The number of its turns. Whoever has a pass learns here that its entries rise, and that its numbers that are out
    /// were given out.
    pub fn left(&self) -> u64
        ensures left { result ≡ self.now.left }
        ensures rises { Rises self.now.mine }
        ensures below { IsBelow self.now }
    {
        self.left
    }
}

impl<T: Logged> TurnLock<T> {
    /// A lock round the value, and the pass with all its turns. A refusal hands the value back.
    pub fn new(alloc: Global, value: T, turns: u64) -> Result<(TurnLock<T>, Pass<T>), (T, Memory)>
        requires few { turns < 2 ^ 63 }
        ensures made { IfOk result (λ r. r.1 ≡ opened r.0 (T.list value) turns) }
        ensures refused { IfErr result (λ r. r.0 ≡ value) }
    {
        let opening = Opening {
            value: Snapshot::of(&value),
            turns,
        };
        let mut slots = Vec::new(alloc);
        if slots.reserve(1).is_err() {
            slots.destroy_empty();
            return Err((value, Memory));
        }
        slots.push_reserved(Some(value));
        match Table::new(alloc, &[0, 0], slots, &opening) {
            Ok((table, seat)) => {
                let asleep = AtomicU64::new(0);
                Ok((TurnLock { table, asleep }, Pass { left: turns, seat }))
            }
            Err(Refused { mut slots }) => {
                let value = slots.pop().unwrap().unwrap();
                slots.destroy_empty();
                Err((value, Memory))
            }
        }
    }

    /// A new pass with a share of the turns of this one.
    pub fn split(&self, pass: &mut Pass<T>, share: u64) -> Pass<T>
        requires own { pass.old.lock ≡ self.now }
        requires enough { share ≤ pass.old.left }
        ensures kept { pass.new ≡ kept_part share pass.old }
        ensures given { result ≡ new_part share pass.old }
        ensures below { IsBelow pass.old × IsBelow pass.new × IsBelow result }
    {
        self.split_by::<Brand>(pass, share)
    }

    fn split_by<K: Amount>(&self, pass: &mut Pass<T>, share: u64) -> Pass<T>
        requires own { pass.old.lock ≡ self.now }
        requires enough { (share ≡ K.share) × (share ≤ pass.old.left) }
        ensures kept { pass.new ≡ kept_part share pass.old }
        ensures given { result ≡ new_part share pass.old }
        ensures below { IsBelow pass.old × IsBelow pass.new × IsBelow result }
    {
        let seat = self.table.shared.split_seat::<Cut<K>>(&mut pass.seat);
        pass.left -= share;
        Pass { left: share, seat }
    }

    /// Takes in a pass that was split from this one.
    pub fn join(&self, pass: &mut Pass<T>, other: Pass<T>)
        requires own { (pass.old.lock ≡ self.now) × (other.lock ≡ self.now) }
        requires name { (k : ℕ) × (other.name ≡ pass.old.name ++ k ∷ []) × In k pass.old.out }
        requires back { other.out ≡ [] }
        ensures joined { pass.new ≡ joined pass.old other }
        ensures seen { StartsWith pass.new.seen pass.old.seen × StartsWith pass.new.seen other.seen }
        ensures rises { Rises pass.new.mine }
        ensures below { IsBelow pass.new }
    {
        let Pass { left, seat } = other;
        let shared = &self.table.shared;
        shared.join_seat::<Glue>(&mut pass.seat, seat);
        shared.load::<Tell>(&mut pass.seat, 1);
        pass.left += left;
    }

    /// Takes a turn, in which `f` appends one entry.
    pub fn turn<R, F: FnOnce(&mut T) -> R, W: Wait>(
        &self,
        rt: &W,
        pass: &mut Pass<T>,
        urgency: Urgency,
        f: F,
    ) -> R
        requires own { pass.old.lock ≡ self.now }
        requires some { 0 < pass.old.left }
        requires may { MayTurn T.list T.answers F.FnOnce f pass.old }
        requires appends { AppendsOne T.list T.answers F.FnOnce f pass.old }
        ensures turned { Turned T.list T.answers F.FnOnce f pass.old pass.new result }
    {
        let shared = &self.table.shared;
        self.enter(rt, &mut pass.seat, urgency);
        let mut value = shared.exchange(&mut pass.seat, 0, None).unwrap();
        let answer = f(&mut value);
        let left = shared.exchange(&mut pass.seat, 0, Some(value));
        let None = left else { unreachable!() };
        shared.fetch_add::<Serve<T>>(&mut pass.seat, 1, 1);
        self.wake();
        pass.left -= 1;
        answer
    }

    // Waits until nobody seems to have a ticket. In a long queue, each turn waits for a thread that may not be running.
    fn await_rest<W: Wait>(&self, rt: &W, urgency: Urgency) {
        let shared = &self.table.shared;
        let mut looks = Looks::none(urgency);
        for _ in rt.forever() {
            let served = shared.peek(1);
            if shared.peek(0) == served {
                return;
            }
            match looks.sleep() {
                Some(time) => shared.park_timeout(rt, 1, low_half(served), time),
                None => spin_loop(),
            }
        }
    }

    // Draws a ticket, and waits until it is served.
    fn enter<W: Wait>(
        &self,
        rt: &W,
        seat: &mut Seat<Option<T>, SeatView<T::Entry>>,
        urgency: Urgency,
    )
        requires own { seat.old.table_id ≡ self.now }
        requires idle { (seat.old.me.0.stage ≡ Idle) × (seat.old.me.1 ≡ []) × (seat.old.me.0.spent ≡ false) }
        requires some { 0 < seat.old.me.0.left }
        ensures same { (seat.new.table_id ≡ seat.old.table_id) × (seat.new.id ≡ seat.old.id) }
        ensures entered { Entered T.list T.answers seat.old.me.0 seat.new.me }
    {
        let shared = &self.table.shared;
        self.await_rest(rt, urgency);
        let ticket = shared.fetch_add::<Draw>(seat, 0, 1);
        let mut looks = Looks::none(urgency);
        for _ in rt.forever() {
            let served = shared.load::<Look<T>>(seat, 1);
            if served == ticket {
                return;
            }
            match looks.sleep() {
                Some(time) => self.sleep(rt, served, time),
                None => spin_loop(),
            }
        }
        unreachable!()
    }

    // Sleeps until another ticket than this one is served, at most for this time. A sleeper is counted before it looks
    // at the word once more, and whoever serves looks at the count after changing the word: so no wake is lost.
    fn sleep<W: Wait>(&self, rt: &W, served: u64, time: Duration) {
        self.asleep.fetch_add(1, Ordering::SeqCst);
        self.table
            .shared
            .park_timeout(rt, 1, low_half(served), time);
        self.asleep.fetch_sub(1, Ordering::SeqCst);
    }

    // Wakes those who wait for their ticket, where somebody sleeps.
    fn wake(&self) {
        if self.asleep.load(Ordering::SeqCst) != 0 {
            self.table.shared.wake_all(1);
        }
    }

    /// The value, for the one pass that is left.
    pub fn close(self, pass: Pass<T>) -> T
        requires own { pass.lock ≡ self }
        requires last { (pass.name ≡ []) × (pass.out ≡ []) }
        ensures { Closed T.list pass result }
    {
        let TurnLock { table, asleep: _ } = self;
        let Pass { left: _, seat } = pass;
        let mut closed = table.close_with(seat);
        let slot = closed.take(0);
        closed.free();
        slot.unwrap()
    }
}
