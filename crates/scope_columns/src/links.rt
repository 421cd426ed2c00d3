//! The weights of the links, added behind the words.

ghost use Rattle.std.specs.Prelude.{◌≡◌, ◌++◌, IfOk, OnOk, length};
ghost use Rattle.fc_values.specs.Fields.{ValueField, with_entry};
ghost use Rattle.fc_values.specs.Types.{IntType, TypeField};
ghost use Rattle.fc_values.specs.Values.{IntValue};
ghost use Rattle.alignment.specs.Scopes.{weights};
ghost use Rattle.alignment.specs.References.{flat_of, nears_of, numbers_in};
ghost use Rattle.scope_columns.specs.Scopes.{devices_in};
ghost use Rattle.scope_columns.specs.Words.{Added, row_of, value_in, weights_of};

use crate::scopes::Sight;
use alignment::NearRef;
use fc_values::Memory;

/// Adds the weights of the links, and the least weight at the device itself.
#[inline(never)]
pub fn push_links(
    words: &mut Vec<u32>,
    sight: &Sight<'_, '_>,
    device: u32,
    least: u32,
) -> Result<(), Memory>
    requires { sight.now.own ≡ row_of device (numbers_in sight.now.env.now) }
    ensures added { OnOk result (Added (TypeField IntType) (devices_in device sight.now.env.now) words.old.items
        words.new.items) }
    ensures value { IfOk result (λ _.
        value_in words.new.items (TypeField IntType) (devices_in device sight.now.env.now) (length words.old.items)
        ≡ ValueField (with_entry device (IntValue least) (weights (flat_of sight.now.env.now).near))) }
{
    let (before, behind) = sight.env.near.as_slice().split_at(sight.own);
    push_weights(words, before)?;
    words.push(least)?;
    push_weights(words, behind)?;
    Ok(())
}

// Adds the weights of some links.
fn push_weights(words: &mut Vec<u32>, near: &[NearRef<'_>]) -> Result<(), Memory>
    ensures { IfOk result (λ _. words.new.items ≡ words.old.items ++ weights_of (nears_of near.now)) }
{
    for n in near {
        words.push(n.weight)?;
    }
    Ok(())
}
