//! What holds of every index, each as the contract of a function that does nothing.

ghost use Rattle.std.specs.Prelude.{◌≡◌, ℕ, List, ◌∷◌, map, All};
ghost use Rattle.std.specs.Map.{keys_of};
ghost use Rattle.qm_model.specs.Operations.{Bytes, AreBytes};
ghost use Rattle.qm_model.specs.Keys.{successor, predecessor, least};
ghost use Rattle.qm_index.specs.Buckets.{IsIndex};
ghost use Rattle.qm_index.specs.Translated.{IsMonotone};
ghost use Rattle.qm_index.specs.Neighbours.{StandsFor, next_by_index, prev_by_index, first_by_index};

/// Of an index that stands for keys, by a translator that keeps their order: the nearest key to another one is the nearest of those in its own bucket, or else it is in the neighbour; the least of all is in the first bucket.
pub fn neighbours_have_the_nearest_keys<V>()
    ensures next { (index_key : Bytes → ℕ) (entries : List (ℕ × List V))
        (elements : List (Bytes × V)) (key : Bytes) → IsMonotone index_key → IsIndex entries
        → StandsFor index_key (λ e. e.0) (λ e. e.1) entries elements
        → All AreBytes (key ∷ map (λ e. e.0) elements)
        → successor (map (λ e. e.0) elements) key
        ≡ next_by_index index_key (keys_of entries) (map (λ e. e.0) elements) key }
    ensures prev { (index_key : Bytes → ℕ) (entries : List (ℕ × List V))
        (elements : List (Bytes × V)) (key : Bytes) → IsMonotone index_key → IsIndex entries
        → StandsFor index_key (λ e. e.0) (λ e. e.1) entries elements
        → All AreBytes (key ∷ map (λ e. e.0) elements)
        → predecessor (map (λ e. e.0) elements) key
        ≡ prev_by_index index_key (keys_of entries) (map (λ e. e.0) elements) key }
    ensures first { (index_key : Bytes → ℕ) (entries : List (ℕ × List V))
        (elements : List (Bytes × V)) → IsMonotone index_key → IsIndex entries
        → StandsFor index_key (λ e. e.0) (λ e. e.1) entries elements
        → All AreBytes (map (λ e. e.0) elements)
        → least (map (λ e. e.0) elements)
        ≡ first_by_index index_key (keys_of entries) (map (λ e. e.0) elements) }
{}
