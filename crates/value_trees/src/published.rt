//! Exports that several owners share.

use fc_values::{Export, Memory};
use std::alloc::Global;
use std::marker::Model;
use std::sync::Arc;

/// An immutable export that its readers share: a share of it costs a count, not a copy.
#[derive(Drop)]
pub struct Published {
    export: Arc<Export>,
}

impl Model for Published {
    ghost use Rattle.std.specs.Coded.{codes};
    ghost use Rattle.fc_values.specs.contracts.values.Local as local;
    ghost use Rattle.fc_values.specs.declared.exports.Export.{Export};

    ghost Value = { Export };

    ghost coded = { Prim.hlevel (codes, local.the_row.coded) };

    ghost view = { λ p. p.export.value };
}

impl Published {
    ghost use Rattle.std.specs.Prelude.{◌≡◌, IfOk};

    /// An export that nobody shares yet.
    pub fn new(alloc: Global, export: Export) -> Result<Published, Memory>
        ensures { IfOk result (λ p. p ≡ export) }
    {
        let export = Arc::new(alloc, export)?;
        Ok(Published { export })
    }

    /// The same export, for one more owner. It takes no memory; where the count of its owners is full, it answers
    /// `Memory`.
    pub fn share(&self) -> Result<Published, Memory>
        ensures { IfOk result (λ p. p ≡ self.now) }
    {
        let export = self.export.clone()?;
        Ok(Published { export })
    }

    /// The export.
    pub fn get(&self) -> &Export
        ensures { result.now ≡ self.now }
    {
        &self.export
    }
}
