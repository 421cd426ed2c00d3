//! Patterns.

/// The pattern of a `rep` or `share`. `potential` is the place of the binder whose variable the guards compare;
/// `greatest` the greatest value that the body has; `growth` and `rise` are by how much values rise from neighbour to
/// neighbour, and from firing to firing.
#[derive(Clone, Copy, Debug, PartialEq, Eq)]
pub enum Pattern {
    Constant,
    Acyclic {
        potential: u32,
    },
    Minimising {
        greatest: u32,
        growth: u32,
    },
    Rising {
        greatest: u32,
        growth: u32,
        rise: u32,
    },
}
