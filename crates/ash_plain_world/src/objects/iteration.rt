//! The objects one after the other.

ghost use Rattle.std.specs.Prelude.{◌≡◌, map};
ghost use Rattle.ash_host.specs.Objects.{IsInOrder};
ghost use Rattle.ash_plain_data.specs.ObjectViews.{entry_seen};

use crate::objects::ObjectMap;
use ash_plain_data::object::Object;
use std::collections::btree_map::Iter;

impl ObjectMap {
    /// The objects with their numbers, by ascending number.
    pub fn iter(&self) -> Iter<'_, u64, Object>
        ensures all { map entry_seen result ≡ self.now }
        ensures in_order { IsInOrder self.now }
    {
        self.entries.iter()
    }
}
