//! Columns: the values of a node at all devices, or a field's values at all links.

use fc_values::Memory;
use std::alloc::Global;
use std::cmp::Ordering;

/// Where a value is looked for: at a device, by its place in the network, or at a link, by its number.
#[derive(Clone, Copy, Debug, PartialEq, Eq)]
pub struct Location {
    pub device: u32,
    pub link: u32,
}

/// The location of a device.
pub fn at_device(device: u32) -> Location {
    Location { device, link: 0 }
}

/// What a column has values for: one for all devices, one for each device, or one for each link.
#[derive(Clone, Copy, Debug, PartialEq, Eq)]
pub enum Spread {
    Everywhere,
    Devices,
    Links,
}

/// Values one after another, each as the numbers of its leaves: a truth value is 0 or 1, and a pair has the leaves of
/// its components.
#[derive(Drop)]
pub struct Column {
    pub spread: Spread,
    pub width: usize,
    pub cells: Vec<u32>,
}

impl Column {
    /// A column of `many` zeros with `width` leaves each.
    pub fn zeros(
        alloc: Global,
        spread: Spread,
        width: usize,
        many: usize,
    ) -> Result<Column, Memory> {
        let cells = vec![in alloc; 0u32; width.saturating_mul(many)]?;
        Ok(Column {
            spread,
            width,
            cells,
        })
    }

    /// A number for each device.
    pub fn numbers(cells: Vec<u32>) -> Column {
        Column {
            spread: Spread::Devices,
            width: 1,
            cells,
        }
    }

    /// A copy.
    pub fn copy(&self, alloc: Global) -> Result<Column, Memory> {
        Ok(Column {
            spread: self.spread,
            width: self.width,
            cells: Vec::from_slice(alloc, &self.cells)?,
        })
    }

    /// Where the leaves of the value at a location begin.
    pub fn at(&self, location: Location) -> usize {
        let value = match self.spread {
            Spread::Everywhere => 0,
            Spread::Devices => location.device,
            Spread::Links => location.link,
        };
        (value as usize).saturating_mul(self.width)
    }

    /// A leaf, by its place among all.
    pub fn leaf(&self, at: usize) -> u32 {
        match self.cells.get(at) {
            Some(number) => *number,
            None => 0,
        }
    }

    /// The first leaf of the value at a location.
    pub fn number(&self, location: Location) -> u32 {
        self.leaf(self.at(location))
    }

    /// Puts a number at a location.
    pub fn put(&mut self, location: Location, number: u32) {
        let at = self.at(location);
        if let Some(cell) = self.cells.get_mut(at) {
            *cell = number;
        }
    }

    /// Puts the value that a column has at some location.
    pub fn carry(&mut self, location: Location, from: &Column, there: Location) {
        self.carry_leaves(location, 0, from, from.at(there), from.width);
    }

    /// Puts so many leaves from one on, behind so many leaves of the own value.
    pub fn carry_leaves(
        &mut self,
        location: Location,
        behind: usize,
        from: &Column,
        first: usize,
        many: usize,
    ) {
        let own = self.at(location).saturating_add(behind);
        for index in 0..many {
            let number = from.leaf(first.saturating_add(index));
            if let Some(cell) = self.cells.get_mut(own.saturating_add(index)) {
                *cell = number;
            }
        }
    }

    /// The order of the value at a location and one of another column.
    pub fn order(&self, location: Location, other: &Column, there: Location) -> Ordering {
        let own = self.at(location);
        let its = other.at(there);
        for index in 0..self.width {
            let a = self.leaf(own.saturating_add(index));
            let b = other.leaf(its.saturating_add(index));
            if a != b {
                return a.cmp(&b);
            }
        }
        Ordering::Equal
    }
}
