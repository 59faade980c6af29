//! Indices that an opening can rebuild.

ghost use Rattle.std.specs.Prelude.{◌≡◌, ◌≢◌, ◌<◌, ◌≤◌, ◌+◌, List, [], length, is_none, true, false, IfSome, IfOk, IfErr, OnOk};
ghost use Rattle.std.specs.List.{list_any};
ghost use Rattle.qm_model.specs.Operations as model;
ghost use Rattle.qm_build.specs.Built.{Rebuilds};

use crate::build::{Snapshot, build_snapshot};
use qm_base::{Corrupt, Error, Hasher, Location};
use qm_index::{OrderedTranslator, Translator, ordered, unordered};
use qm_merkle::Family;
use qm_operations::Update;
use qm_store::{AuthLog, Store};
use std::alloc::Global;
use std::num::NonZeroUsize;

mod sealed {
    /// What no other crate can implement.
    pub trait SnapshotBuildSealed {}
}

/// An index that an opening rebuilds from the items of a log.
pub trait SnapshotBuild<F: Family>: qm_index::Unordered<Value = Location<F>>
    + sealed::SnapshotBuildSealed {
    /// How many threads a rebuild takes, if there is a choice.
    type Concurrency: Drop;

    /// Rebuilds the list of a log in this index, as `build_snapshot` does.
    final fn build<C: Store, H: Hasher, U: Update>(
        &mut self,
        alloc: Global,
        log: &mut AuthLog<F, C, H>,
        floor: Location<F>,
        kept_keys: NonZeroUsize,
        _concurrency: Self::Concurrency,
    ) -> Result<Snapshot, Error>
        requires empty { Self.entries self.old ≡ [] }
        requires kept { log.old.tree.start ≤ floor }
        requires below { floor < log.old.tree.leaves }
        ensures { Rebuilds C.Store F.shape H.Digest.bytes H.hash U.form Self.index_key floor log.old
            log.new (Self.entries self.new) result }
    {
        build_snapshot::<F, Self, C, H, U>(alloc, self, log, floor, kept_keys)
    }
}

impl<F: Family, T: Translator> sealed::SnapshotBuildSealed for unordered::Index<T, Location<F>> {}

impl<F: Family, T: OrderedTranslator> sealed::SnapshotBuildSealed
    for ordered::Index<T, Location<F>> {}

impl<F: Family, T: Translator> SnapshotBuild<F> for unordered::Index<T, Location<F>> {
    type Concurrency = ();
}

impl<F: Family, T: OrderedTranslator> SnapshotBuild<F> for ordered::Index<T, Location<F>> {
    type Concurrency = ();
}
