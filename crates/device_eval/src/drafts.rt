//! Exports that are being made.

ghost use Rattle.std.specs.Prelude.{◌≡◌, ◌<◌, IfOk, length, slice_set, true};
ghost use Rattle.fc_values.specs.Values.{local_of};
ghost use Rattle.fc_values.specs.Exports.{slots_of, export_of};
ghost use Rattle.fc_nodes.specs.Layouts.{blank_slots};

use fc_nodes::Layout;
use fc_values::{Export, Local, Memory, Slot, Slots, copy};
use std::alloc::Global;
use std::marker::Model;

/// An export that is being made: a slot for each kept place.
#[derive(Drop)]
pub struct Draft {
    list: Vec<Slot>,
}

impl Model for Draft {
    ghost use Rattle.std.specs.Prelude.{List};
    ghost use Rattle.std.specs.Coded.{codes};
    ghost use Rattle.fc_values.specs.declared.exports.Slot.{Slot};
    ghost use Rattle.fc_values.specs.contracts.values.Local as local;

    ghost Value = { List Slot };

    ghost coded = { Prim.hlevel (codes, local.the_row.coded) };

    ghost view = { λ d. d.list.items };
}

impl Draft {
    /// A draft of which no slot is kept.
    pub fn new(alloc: Global, layout: &Layout) -> Result<Draft, Memory>
        ensures { IfOk result (λ d. slots_of d ≡ blank_slots layout.now.blanks) }
    {
        let blanks = layout.blanks();
        let mut list = Vec::with_capacity(alloc, blanks.len())?;
        for blank in blanks {
            list.push(Slot {
                kept: false,
                value: copy(alloc, blank)?,
            })?;
        }
        Ok(Draft { list })
    }

    /// Keeps a value in a slot.
    pub fn put(&mut self, slot: u32, value: Local)
        requires { slot < length self.old }
        ensures { slots_of self.new ≡ slice_set (slots_of self.old) slot (true, local_of value) }
    {
        self.list[slot as usize] = Slot { kept: true, value };
    }

    /// The export with these slots, and a value.
    pub fn finish(self, value: Local) -> Export
        ensures { export_of result ≡ record { value = local_of value; slots = slots_of self } }
    {
        let Draft { list } = self;
        Export {
            value,
            slots: Slots { list },
        }
    }
}
