//! What holds of parts of an index that are rebuilt alone.

ghost use Rattle.std.specs.Bool.{then_some};
ghost use Rattle.std.specs.Prelude.{◌≡◌, ◌↔◌, ◌<◌, ◌++◌, ◌∷◌, [], ℕ, Bool, true, List, Some, length, map, filter, sum_by, All, Contains};
ghost use Rattle.qm_model.specs.Operations.{Bytes, Operation};
ghost use Rattle.qm_model.specs.Live.{live_from};
ghost use Rattle.qm_operations.specs.Parts.{key_of, is_update};
ghost use Rattle.qm_index.specs.Buckets.{all_values, IsIndex};
ghost use Rattle.qm_index.specs.Places.{Places, HasPlaces, moved};
ghost use Rattle.qm_routed.specs.Routed.{Routed, located, live_routed, routed, pairs, places_routed, tick, owners, owner_of, has_partition, IsOfParts};

/// Routed operations of a list have its live updates; and what is live among the operations of some keys is what is live among all that has these keys.
pub fn a_part_is_rebuilt_alone()
    ensures whole { (i : ℕ) (ops : List Operation) → live_routed (located i ops) ≡ live_from i ops }
    ensures part { (own : Bytes → Bool) (rs : Routed)
        → live_routed (routed own rs) ≡ filter (λ e. own e.key) (live_routed rs) }
    ensures places { (own : Bytes → Bool) (rs : Routed)
        → places_routed (routed own rs) ≡ filter (λ p. own p.0) (places_routed rs) }
{}

/// One more operation of a key moves that key, as it does in a whole list.
pub fn an_operation_moves_its_key()
    ensures { (rs : Routed) (at : ℕ) (op : Operation) (key : Bytes) → key_of op ≡ Some key
        → places_routed (rs ++ (at, op) ∷ [])
        ≡ moved (places_routed rs) key (then_some (is_update op) at) }
{}

/// If the index key of each place is in exactly one part, the parts have as many places as there are.
pub fn counts_add_up()
    ensures { (parts : List (ℕ → Bool)) (index_key : Bytes → ℕ) (ps : Places)
        → All (λ p. sum_by (λ own. tick (own (index_key p.0))) parts ≡ 1) ps
        → sum_by (λ own. length (filter (λ p. own (index_key p.0)) ps)) parts ≡ length ps }
{}

/// An index of which each bucket is that of a part that owns its index key, rebuilt of the operations of its keys alone, is the index of the whole list.
pub fn parts_make_the_whole()
    ensures { (index_key : Bytes → ℕ) (entries : List (ℕ × List ℕ)) (floor : ℕ)
        (ops : List Operation) → IsOfParts index_key entries floor ops
        → HasPlaces index_key entries (pairs (live_from floor ops)) }
{}

/// Each partition is of exactly one worker, of that which `owner_of` tells.
pub fn each_partition_has_one_worker()
    ensures one { (partitions workers p : ℕ) → 0 < workers → p < partitions
        → owners partitions workers p workers ≡ 1 }
    ensures whose { (partitions workers p : ℕ) → 0 < workers → p < partitions
        → (owner_of partitions workers p < workers)
        × (has_partition partitions workers (owner_of partitions workers p) p ≡ true) }
{}

/// The values of an index that has places are their locations.
pub fn values_are_places()
    ensures { (index_key : Bytes → ℕ) (entries : List (ℕ × List ℕ)) (ps : Places)
        → IsIndex entries → HasPlaces index_key entries ps
        → (l : ℕ) → Contains (all_values entries) l ↔ Contains (map (λ p. p.1) ps) l }
{}
