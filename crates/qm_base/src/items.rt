//! Logs whose items are read one by one.

ghost use Rattle.std.specs.Prelude.{◌≡◌, ◌≤◌, ℕ, List, option_map, slice_get, IfSome, IfOk};
ghost use Rattle.qm_base.specs.Reads.{ItemsTold, ReadsItems};

use crate::error::Error;

/// A log whose items are read one by one. Whoever plans a batch or scans a list needs no more of a log: neither how its
/// items are hashed nor where they are kept.
pub trait Items {
    /// What is told of the log.
    ghost reads: { ItemsTold Self };

    /// The item at a location, if there is one.
    fn read_item(&mut self, at: u64) -> Result<Option<Vec<u8>>, Error>
        ensures value { (items : List (List ℕ)) → reads.logged self.old items
            → IfSome (reads.told self.old) (λ _.
            IfOk result (λ item. option_map (λ v. v.items) item ≡ slice_get items at)) }
        ensures reads { ReadsItems reads self.old self.new result (reads.start self.old ≤ at) };

    ghost unread: { (a : Self) → reads.keeps a a };

    ghost read_again: { (a b c : Self) → reads.keeps a b → reads.keeps b c → reads.keeps a c };

    ghost failed_later: { (a b c : Self) → reads.keeps a b → reads.failed b c → reads.failed a c };
}
