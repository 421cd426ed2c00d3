//! Ranks of devices by a potential.

ghost use Rattle.converge_laws.specs.Ranks.{RanksAreLow};

/// The rank of a device of a set, which is the number of different lower potentials in the set: a device with a lower
/// potential has a lower rank, and a rank is below the number of the network's devices and below the number of values
/// that the potential may have.
pub fn ranks_are_low()
    ensures { RanksAreLow }
{}
