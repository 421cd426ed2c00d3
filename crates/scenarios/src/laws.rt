//! Laws of the definitions.

ghost use Rattle.scenarios.specs.Laws.{RingsAreNetworks, RingsAreTyped, RingsStabilise};
ghost use Rattle.scenarios.specs.Rubbish.{SomeRubbish};

use value_trees::lists_have_exports;

/// There is rubbish for each program and all devices: what is drawn has the types that are asked, and is kept by an
/// export.
pub fn some_rubbish()
    ensures { SomeRubbish }
{
    lists_have_exports();
}

/// The program of each ring is typed and unfolds within the limit.
pub fn rings_are_typed()
    ensures { RingsAreTyped }
{}

/// Each ring is a network, with the declarations of its program.
pub fn rings_are_networks()
    ensures { RingsAreNetworks }
{}

/// The verdict on the program of each ring is a yes, for two rounds and two more for each device.
pub fn rings_stabilise()
    ensures { RingsStabilise }
{}
