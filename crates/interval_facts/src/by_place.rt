//! The ranges of a program's nodes.

use crate::intervals::Range;
use std::marker::Model;

/// The range of each node of a program, by its place.
#[derive(Drop)]
pub struct Ranges {
    list: Vec<Range>,
}

impl Model for Ranges {
    ghost use Rattle.std.specs.Prelude.{List, map};
    ghost use Rattle.std.specs.Coded.{codes};
    ghost use Rattle.interval_facts.specs.Ranges.{RangeValue, range_value};
    ghost use Rattle.interval_facts.specs.Codes.{range_value_code};

    ghost Value = { List RangeValue };

    ghost coded = { Prim.hlevel (codes, range_value_code) };

    ghost view = { λ r. map range_value r.list.items };
}

impl Ranges {
    ghost use Rattle.std.specs.Prelude.{◌≡◌, ◌<◌, length, slice_index_or as get_or};
    ghost use Rattle.interval_facts.specs.Ranges.{range_value, BoolRange};
    ghost use Rattle.interval_facts.specs.Picks.{ranges_in};

    // Ranges by their places.
    pub(crate) fn new(list: Vec<Range>) -> Self
        ensures { result ≡ ranges_in list.items }
    {
        Ranges { list }
    }

    /// The range of the node at a place.
    pub fn at(&self, place: u32) -> &Range
        requires { place < length self.now }
        ensures { range_value result.now ≡ get_or self.now place BoolRange }
    {
        &self.list[place as usize]
    }
}
