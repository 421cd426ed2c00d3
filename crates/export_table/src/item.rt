//! What the list of the lock is made of.

use firing_core::Entry;
use std::marker::Model;

/// An item of the lock's list. Contracts see the opening or an entry; no value of it is made, and one would be an
/// entry.
#[derive(Drop)]
pub struct Item {
    entry: Entry,
}

impl Model for Item {
    ghost use Rattle.std.specs.Coded.{codes};
    ghost use Rattle.fc_values.specs.Codes.{local_value_code};
    ghost use Rattle.fc_values.specs.contracts.values.Local as local;
    ghost use Rattle.fc_values.specs.contracts.types.LocalTy as local_ty;
    ghost use Rattle.firing_core.specs.Entries.{entry_of};
    ghost use Rattle.export_table.specs.Items.{ItemValue, WrittenItem};

    ghost Value = { ItemValue };

    ghost coded = { Prim.hlevel (codes, local_value_code, local.the_row.coded, local_ty.the_row.coded) };

    ghost view = { λ i. WrittenItem (entry_of i.entry) };
}
