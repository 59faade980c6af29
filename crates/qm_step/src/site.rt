//! Writes, each with where its key stands in a base list.

ghost use Rattle.std.specs.Prelude.{◌≡◌, option_map};

use crate::found::Stands;
use crate::writes::LastWrite;

/// A write, and where its key's live update stands in the base list.
#[derive(Drop)]
pub struct Site<'a, K, V> {
    /// The write.
    pub write: LastWrite<'a, K, V>,
    /// Where the live update stands, if there is one.
    pub stands: Option<Stands<K>>,
}

impl<'a, K, V> Site<'a, K, V> {
    /// The location.
    pub(crate) fn at(&self) -> Option<u64>
        ensures { result ≡ option_map (λ t. t.at) self.now.stands }
    {
        match &self.stands {
            Some(stands) => Some(stands.at),
            None => None,
        }
    }
}
