//! Laws of the definitions.

ghost use Rattle.net_json.specs.ReadingBack.{TablesReadBack};
ghost use Rattle.net_json.specs.FittingScenes.{AcceptedScenesFit};
ghost use Rattle.net_json.specs.AcceptedLists.{AcceptedListsAreKept};

/// A table that was written can be given back as the table of a scene.
pub fn tables_read_back()
    ensures { TablesReadBack }
{}

/// A program may start from each scene that is accepted for it.
pub fn accepted_scenes_fit()
    ensures { AcceptedScenesFit }
{}

/// The export that is accepted for a value and a kept list has that value, and keeps the values of the list.
pub fn accepted_lists_are_kept()
    ensures { AcceptedListsAreKept }
{}
