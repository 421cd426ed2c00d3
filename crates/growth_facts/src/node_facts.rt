//! Growths, and what is known of a node of a body.

/// A growth, or the place of the node that has none.
#[derive(Clone, Copy, Debug, PartialEq, Eq)]
pub enum Growth {
    None(u32),
    At(u32),
}

// What is known of a node of the body of a `rep` or `share`: whether the variable occurs in it, whether it is the
// variable itself, what is heard of the variable, or the second component of that; whether its entries are integers, or
// are led by an integer; the least of these integers, 0 where there are none; and its growth.
#[derive(Clone, Copy)]
pub struct Facts {
    pub uses: bool,
    pub own: bool,
    pub heard: bool,
    pub rest: bool,
    pub integer: bool,
    pub leads: bool,
    pub least: u32,
    pub growth: Growth,
}

// The variable of a `rep` or `share`: the place that binds it, and which of the two that is.
#[derive(Clone, Copy)]
pub struct Evolving {
    pub place: u32,
    pub by_share: bool,
}

// The kids of a node: whether the variable occurs in one of them, how many they are, and the facts of the first three.
#[derive(Clone, Copy)]
pub struct Kids {
    pub uses: bool,
    pub count: usize,
    pub first: Facts,
    pub second: Facts,
    pub third: Facts,
}
