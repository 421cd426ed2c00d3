//! Places in a scene.

ghost use Rattle.std.specs.Prelude.{◌≡◌, IfOk};
ghost use Rattle.net_json.specs.Judging.{at_member, at_index};
ghost use Rattle.net_json.specs.PlaceCode.{path_of};

use crate::types::Path;
use fc_values::Memory;
use std::alloc::Global;

/// A place in a scene: the scene itself, a member of a place, or an item of one. Its path is written only for a fault.
#[derive(Clone, Copy)]
pub(crate) enum Place<'p> {
    Scene,
    Member(&'p Place<'p>, &'p [u8]),
    Item(&'p Place<'p>, usize),
}

impl Place<'_> {
    /// The path of the place.
    pub(crate) fn path(&self, alloc: Global) -> Result<Path, Memory>
        ensures { IfOk result (λ p. p.text.items ≡ path_of self.now) }
    {
        match self {
            Place::Scene => Ok(Path {
                text: Vec::new(alloc),
            }),
            Place::Member(outer, name) => behind(outer.path(alloc)?, name),
            Place::Item(outer, index) => behind(
                outer.path(alloc)?,
                index.to_string(alloc)?.as_bytes(),
            ),
        }
    }

    /// The path of a member.
    pub(crate) fn member(&self, alloc: Global, name: &[u8]) -> Result<Path, Memory>
        ensures { IfOk result (λ p. p.text.items ≡ at_member (path_of self.now) name.now) }
    {
        behind(self.path(alloc)?, name)
    }

    /// The path of an item.
    pub(crate) fn item(&self, alloc: Global, index: usize) -> Result<Path, Memory>
        ensures { IfOk result (λ p. p.text.items ≡ at_index (path_of self.now) index) }
    {
        behind(self.path(alloc)?, index.to_string(alloc)?.as_bytes())
    }
}

// A path that goes on with `/` and a word.
fn behind(path: Path, word: &[u8]) -> Result<Path, Memory>
    ensures { IfOk result (λ p. p.text.items ≡ at_member path.text.items word.now) }
{
    let mut text = path.text;
    text.push(b'/')?;
    text.extend_from_slice(word)?;
    Ok(Path { text })
}
