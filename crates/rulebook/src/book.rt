// What a rulebook is.
ghost use Rattle.std.specs.Prelude.{◌≡◌};
ghost use Rattle.rulebook.specs.Tables.{Table, Laws, seek};

use crate::entries::RowEntry;

/// A table of watch entries that keeps the laws of tables.
pub trait Rulebook {
    ghost table: { Self → Table };

    /// How many items there are: their numbers are below it.
    fn items(&self) -> u32
        ensures { result ≡ (table self.now).items };

    /// How many rows there are.
    fn rows(&self) -> u32
        ensures { result ≡ (table self.now).rows };

    /// The first watch entry of an item at or after a row, with its row: none if the item has no more, or there is no
    /// such item.
    fn seek(&self, item: u32, row: u32) -> Option<RowEntry>
        ensures { result ≡ seek (table self.now) item row };

    ghost lawful: { (b : Self) → Laws (table b) };
}
