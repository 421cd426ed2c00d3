//! Laws of last bounds.

ghost use Rattle.last_bounds.specs.Laws.{OneList, SomeList};

use export_bounds::exports_hold;

/// Tables that are the same at the devices of an envelope have at most one list of last bounds.
pub fn one_list()
    ensures { OneList }
{}

/// Each table has one, if one round at least is made.
pub fn some_list()
    ensures { SomeList }
{
    exports_hold();
}
