//! What a firing reads.

use crate::published::Published;
use fc_values::Local;

/// A neighbour in a copy: its number, the weight of its link, and its export.
#[derive(Drop)]
pub struct Near {
    pub device: u32,
    pub weight: u32,
    pub export: Published,
}

/// A copy: what a firing of `device` reads. The neighbours' numbers rise.
#[derive(Drop)]
pub struct Snap {
    pub device: u32,
    pub inputs: Vec<Local>,
    pub own: Option<Published>,
    pub near: Vec<Near>,
}
