//! The value of a builtin at one location.

use crate::columns::{Column, Location};
use crate::groups::Group;
use fc_values::{Builtin, add_cut, multiply_cut};
use std::cmp::Ordering;

/// A builtin with the columns of its arguments, over the devices of a group.
#[derive(Clone, Copy)]
pub struct Application<'a> {
    pub builtin: Builtin,
    pub ceiling: u32,
    pub group: &'a Group,
    pub first: &'a Column,
    pub second: &'a Column,
    pub third: &'a Column,
}

impl<'a> Application<'a> {
    /// Puts the value of the builtin at a location.
    pub fn put(&self, location: Location, own: &mut Column) {
        let (a, b, c) = (self.first, self.second, self.third);
        match self.builtin {
            Builtin::Add => own.put(
                location,
                add_cut(a.number(location), b.number(location), self.ceiling),
            ),
            Builtin::Sub => own.put(
                location,
                a.number(location).saturating_sub(b.number(location)),
            ),
            Builtin::Mul => {
                own.put(
                    location,
                    multiply_cut(a.number(location), b.number(location), self.ceiling),
                );
            }
            Builtin::Min => own.carry(location, self.unless(location, Ordering::Greater), location),
            Builtin::Max => own.carry(location, self.unless(location, Ordering::Less), location),
            Builtin::Less => own.put(location, self.is(location, Ordering::Less)),
            Builtin::Equal => own.put(location, self.is(location, Ordering::Equal)),
            Builtin::And => own.put(location, a.number(location) & b.number(location)),
            Builtin::Or => own.put(location, a.number(location) | b.number(location)),
            Builtin::Not => own.put(location, 1u32.saturating_sub(a.number(location))),
            Builtin::Mux => own.carry(
                location,
                if a.number(location) != 0 { b } else { c },
                location,
            ),
            Builtin::Pair => {
                own.carry(location, a, location);
                own.carry_leaves(location, a.width, b, b.at(location), b.width);
            }
            Builtin::Fst => own.carry_leaves(location, 0, a, a.at(location), own.width),
            Builtin::Snd => {
                let first = a
                    .at(location)
                    .saturating_add(a.width)
                    .saturating_sub(own.width);
                own.carry_leaves(location, 0, a, first, own.width);
            }
            Builtin::MinHoodLoc => self.choose(location, Ordering::Greater, own),
            Builtin::MaxHoodLoc => self.choose(location, Ordering::Less, own),
            Builtin::SumHood => own.put(location, self.sum(location)),
            Builtin::AnyHood => own.put(location, self.any(location)),
            Builtin::AllHood => own.put(location, 1u32.saturating_sub(self.any_not(location))),
            Builtin::Rise => {
                let risen = add_cut(b.number(location), c.number(location), self.ceiling);
                own.put(location, a.number(location).min(risen));
            }
        }
    }

    // Whether the arguments have this order: 1 or 0.
    fn is(&self, location: Location, order: Ordering) -> u32 {
        if self.first.order(location, self.second, location) == order {
            1
        } else {
            0
        }
    }

    // The first argument, or the second where they have this order.
    fn unless(&self, location: Location, order: Ordering) -> &'a Column {
        if self.first.order(location, self.second, location) == order {
            self.second
        } else {
            self.first
        }
    }

    // Puts the local argument, and what is heard where the value has this order to it.
    fn choose(&self, location: Location, order: Ordering, own: &mut Column) {
        own.carry(location, self.second, location);
        for end in self.group.heard(location.device) {
            if own.order(location, self.first, end.location) == order {
                own.carry(location, self.first, end.location);
            }
        }
    }

    fn sum(&self, location: Location) -> u32 {
        let mut total = 0u32;
        for end in self.group.heard(location.device) {
            total = add_cut(total, self.first.number(end.location), self.ceiling);
        }
        total
    }

    // Whether something that is heard is true: 1 or 0.
    fn any(&self, location: Location) -> u32 {
        for end in self.group.heard(location.device) {
            if self.first.number(end.location) != 0 {
                return 1;
            }
        }
        0
    }

    // Whether something that is heard is false: 1 or 0.
    fn any_not(&self, location: Location) -> u32 {
        for end in self.group.heard(location.device) {
            if self.first.number(end.location) == 0 {
                return 1;
            }
        }
        0
    }
}
