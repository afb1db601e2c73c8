// Trails in lent memory.
ghost use Rattle.std.specs.Prelude.{◌≡◌, ◌+◌, ◌<◌, length, Some, slice_set};
ghost use Rattle.rulebook.specs.Tables.{max_items};

/// An active item, and what made it active: the trail numbers of the premises, or none where it was requested.
///
/// A trail number is the place of a record on the trail, from 0.
#[derive(Clone, Copy, PartialEq, Eq, Debug)]
pub struct TrailRecord {
    /// the number of the item
    pub item: u32,
    /// the trail number of the item whose watch entry was taken
    pub first: Option<u32>,
    /// the trail number of the partner in that entry, if it had one
    pub second: Option<u32>,
}

/// What a trail place may hold before it is written.
pub const UNUSED: TrailRecord = TrailRecord {
    item: 0,
    first: None,
    second: None,
};

// The first `len` places hold the records, and the mark of an item its trail number, or none. It is a type of its own
// since `push` writes all three before they agree again.
#[derive(Drop)]
pub(crate) struct Trail<'a> {
    pub(crate) places: &'a mut [TrailRecord],
    pub(crate) marks: &'a mut [Option<u32>],
    pub(crate) len: u32,
}

impl Trail<'_> {
    ghost use Rattle.session.specs.Held.{SameMemory};

    // One record more.
    pub(crate) fn push(&mut self, added: TrailRecord)
        requires few { self.old.len < max_items }
        requires position { self.old.len < length self.old.places.now }
        requires mark { added.item < length self.old.marks.now }
        ensures places { self.new.places.now ≡ slice_set self.old.places.now self.old.len added }
        ensures marks { self.new.marks.now
            ≡ slice_set self.old.marks.now added.item (Some self.old.len) }
        ensures len { self.new.len ≡ self.old.len + 1 }
        ensures same { SameMemory self.old self.new }
    {
        let at = self.len;
        self.places[at as usize] = added;
        self.marks[added.item as usize] = Some(at);
        self.len = at + 1;
    }
}
