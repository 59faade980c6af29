//! What holds of the definitions, each as the contract of a function that does nothing.

ghost use Rattle.std.specs.Prelude.{◌≡◌, ◌↔◌, ℕ, suc, ◌+◌, ◌-◌, ◌^◌, ◌<◌, ◌≤◌, Bool, true, false, if◌then◌else◌, List, [], ◌∷◌, ◌++◌, length, map, take, drop, All, IsPermutation, Option, Some, is_some, bytes_eq, replicate, slice_index_or, slice_get, ◌*◌};
ghost use Rattle.std.specs.List.{IsDistinct};
ghost use Rattle.std.specs.List.Sorted.{IsSortedBy, IsStrictlySortedBy};
ghost use Rattle.std.specs.Cmp.Lexicographic.{slice_cmp};
ghost use Rattle.std.specs.Ordering.{nat_cmp};
ghost use Rattle.qm_model.specs.Operations.{Bytes, Operation, IsCommitEnded, update};
ghost use Rattle.qm_model.specs.Forms.{Form, IsOf, IsSpelling, spelling, decoded};
ghost use Rattle.qm_model.specs.Live.{live, live_keys, floor, value_of, touched};
ghost use Rattle.qm_model.specs.Keys.{key_lt, successor, predecessor, contains_key, without, once, by_key, between, IsNext, IsPrevious};
ghost use Rattle.qm_model.specs.Writes.{Write, last_writes, write_of, overwritten, unordered_writes, made_inactive};
ghost use Rattle.qm_model.specs.Walk.{Rules, Limits, walk};
ghost use Rattle.qm_model.specs.Ordered.{ordered_writes, evicted_keys, deleted_keys, updated_keys, created_keys, relinked_keys, IsRing};
ghost use Rattle.qm_model.specs.Step.{unordered, ordered, step, evicted_of, Made, IsGood, IsOrderedGood, Kind};
ghost use Rattle.qm_model.specs.Batches.{Begins};
ghost use Rattle.qm_model.specs.Policies.{OnlyKeeps, NeverMoves};
ghost use Rattle.qm_model.specs.Proofs.{item_leaves, proof_of, verdict};
ghost use Rattle.qm_model.specs.Trees.{Shape, peaks, root, leaves_from};
ghost use Rattle.qm_model.specs.StoreModel.{Stored, empty, IsImage};
ghost use Rattle.qm_model.specs.Opening.{found, Chunks, entries_of};
ghost use Rattle.qm_model.specs.Own.{Engine, any_engine, current_engine, ArePrompt, NeedsRise, Log, no_log, left_at, IsKept, IsOwn, head_of, found_in, OpensParts, OpensWhole, IsBetween, OpensBetween, CrashLaws, IsCounted};
ghost use Rattle.qm_model.specs.Bits.{bits};
ghost use Rattle.qm_model.specs.Grafted.{chunk_size, chunk_of, canonical, metadata};
ghost use Rattle.qm_model.specs.RangeProofs.{chunks_of, range_proof, range_verdict};
ghost use Rattle.qm_model.specs.Families.{Births, HasPlaces};

/// A policy by its rules alone, for laws that hold of every policy.
pub trait Ruled {
    ghost rules: { Rules Self };
}

/// Of the writes to a key the last one wins, and it changes no other key.
pub fn last_write_wins()
    ensures own { (ws : List Write) (w : Write)
        → write_of (last_writes (ws ++ w ∷ [])) w.key ≡ Some w }
    ensures others { (ws : List Write) (w : Write) (key : Bytes) → bytes_eq w.key key ≡ false
        → write_of (last_writes (ws ++ w ∷ [])) key ≡ write_of (last_writes ws) key }
{}

/// The floor after a step is a location of its list.
pub fn floor_is_inside<P: Ruled>()
    ensures { (ops : List Operation) (ws : List Write) (policy : P) (meta : Option Bytes)
        → floor ops ≤ length ops
        → let after = step unordered P.rules ops ws policy meta in floor after < length after }
{}

/// If nothing is live after a step, and only then, its floor is its commit.
pub fn an_empty_list_has_its_floor_at_the_commit<P: Ruled>()
    ensures { (ops : List Operation) (ws : List Write) (policy : P) (meta : Option Bytes)
        → IsGood ops
        → let after = step unordered P.rules ops ws policy meta in
        (live after ≡ []) ↔ (suc (floor after) ≡ length after) }
{}

/// A step does not lower the floor, and no live update stands below it.
pub fn floors_never_fall<P: Ruled>()
    ensures rises { (ops : List Operation) (ws : List Write) (policy : P) (meta : Option Bytes)
        → floor ops ≤ length ops
        → floor ops ≤ floor (step unordered P.rules ops ws policy meta) }
    ensures below { (ops : List Operation) (ws : List Write) (policy : P) (meta : Option Bytes)
        → IsGood ops
        → let after = step unordered P.rules ops ws policy meta in
        All (λ e. floor after ≤ e.location) (live after) }
{}

/// Each list that steps make keeps what an unordered database relies on.
pub fn made_lists_are_good<P: Ruled>()
    ensures { (ops : List Operation) → Made unordered P.rules ops → IsGood ops }
{}

/// Under a policy that writes each value as it is, or decides nothing, a step changes the map as its writes say.
pub fn keeping_policies_keep_the_map<P: Ruled>()
    ensures only_keeps { (ops : List Operation) (ws : List Write) (policy : P) (meta : Option Bytes)
        (key : Bytes) → OnlyKeeps P.rules
        → value_of (step unordered P.rules ops ws policy meta) key
        ≡ overwritten (write_of (last_writes ws) key) (value_of ops key) }
    ensures never_moves { (ops : List Operation) (ws : List Write) (policy : P)
        (meta : Option Bytes) (key : Bytes) → NeverMoves P.rules
        → value_of (step unordered P.rules ops ws policy meta) key
        ≡ overwritten (write_of (last_writes ws) key) (value_of ops key) }
{}

/// The writes of a step give each key the value of its last write, and change no other.
pub fn writes_change_the_map()
    ensures unordered { (ops : List Operation) (ws : List Write) (key : Bytes)
        → value_of (ops ++ unordered_writes ops ws) key
        ≡ overwritten (write_of (last_writes ws) key) (value_of ops key) }
    ensures ordered { (ops : List Operation) (ws : List Write) (key : Bytes)
        → value_of (ops ++ ordered_writes ops ws) key
        ≡ overwritten (write_of (last_writes ws) key) (value_of ops key) }
{}

/// No key is live twice, and ordered writes change how many are by those that they create and delete. A delete makes itself and the update before it inactive, and each other write of a live key the update before it.
pub fn live_keys_are_counted()
    ensures once { (ops : List Operation) → IsDistinct bytes_eq (live_keys ops) }
    ensures ordered { (ops : List Operation) (ws : List Write)
        → length (live (ops ++ ordered_writes ops ws)) + length
        (deleted_keys (live ops) (last_writes ws))
        ≡ length (live ops) + length (created_keys (live ops) (last_writes ws)) }
    ensures inactive { (ops : List Operation) (ws : List Write)
        → made_inactive ops (ordered_writes ops ws)
        ≡ 2 * length (deleted_keys (live ops) (last_writes ws)) + length
        (updated_keys (live ops) (last_writes ws)) + length
        (relinked_keys (live ops) (last_writes ws)) }
{}

/// A walk decides live keys, each once.
pub fn walks_decide_live_keys_once<P: Ruled>()
    ensures once { (ops : List Operation) (f : ℕ) (limits : Limits) (policy : P)
        → IsDistinct bytes_eq (map (λ d. d.key) (walk P.rules ops f limits policy).decisions) }
    ensures live { (ops : List Operation) (f : ℕ) (limits : Limits) (policy : P)
        → All (λ d. contains_key (live_keys ops) d.key ≡ true)
        (walk P.rules ops f limits policy).decisions }
{}

/// A walk tells the keys that it evicts as it decides them, each with the value that it had.
pub fn walks_tell_what_they_evict<P: Ruled>()
    ensures keys { (ops : List Operation) (f : ℕ) (limits : Limits) (policy : P)
        → let ds = (walk P.rules ops f limits policy).decisions in
        map (λ x. x.0) (evicted_of ops ds) ≡ evicted_keys ds }
    ensures values { (ops : List Operation) (f : ℕ) (limits : Limits) (policy : P)
        → All (λ x. value_of ops x.0 ≡ Some x.1)
        (evicted_of ops (walk P.rules ops f limits policy).decisions) }
{}

/// The map after a step is the map before with the last writes, and then what the walk decided.
pub fn steps_change_the_map<P: Ruled>()
    ensures unordered { (ops : List Operation) (ws : List Write) (policy : P) (meta : Option Bytes)
        (key : Bytes)
        → let made = unordered_writes ops ws in
        let walked = walk P.rules (ops ++ made) (floor ops) (P.rules.limits policy (made_inactive ops made)) policy in
        value_of (step unordered P.rules ops ws policy meta) key
        ≡ overwritten (write_of walked.decisions key)
        (overwritten (write_of (last_writes ws) key) (value_of ops key)) }
    ensures ordered { (ops : List Operation) (ws : List Write) (policy : P) (meta : Option Bytes)
        (key : Bytes)
        → let made = ordered_writes ops ws in
        let walked = walk P.rules (ops ++ made) (floor ops) (P.rules.limits policy (made_inactive ops made)) policy in
        value_of (step ordered P.rules ops ws policy meta) key
        ≡ overwritten (write_of walked.decisions key)
        (overwritten (write_of (last_writes ws) key) (value_of ops key)) }
{}

/// A step of an ordered database does not lower the floor, which is a location of its list, below each live update, and its commit exactly if nothing is live.
pub fn ordered_floors_are_kept<P: Ruled>()
    ensures inside { (ops : List Operation) (ws : List Write) (policy : P) (meta : Option Bytes)
        → floor ops ≤ length ops
        → let after = step ordered P.rules ops ws policy meta in floor after < length after }
    ensures rise { (ops : List Operation) (ws : List Write) (policy : P) (meta : Option Bytes)
        → floor ops ≤ length ops
        → floor ops ≤ floor (step ordered P.rules ops ws policy meta) }
    ensures below { (ops : List Operation) (ws : List Write) (policy : P) (meta : Option Bytes)
        → IsGood ops
        → let after = step ordered P.rules ops ws policy meta in
        All (λ e. floor after ≤ e.location) (live after) }
    ensures empty { (ops : List Operation) (ws : List Write) (policy : P) (meta : Option Bytes)
        → IsGood ops
        → let after = step ordered P.rules ops ws policy meta in
        (live after ≡ []) ↔ (suc (floor after) ≡ length after) }
{}

/// If each live update names the next live key, each does after the writes of a step, and after the step.
pub fn the_ring_is_kept<P: Ruled>()
    ensures writes { (ops : List Operation) (ws : List Write) → IsRing ops
        → IsRing (ops ++ ordered_writes ops ws) }
    ensures steps { (ops : List Operation) (ws : List Write) (policy : P) (meta : Option Bytes)
        → IsRing ops
        → IsRing (step ordered P.rules ops ws policy meta) }
{}

/// Each list that steps make keeps what an ordered database relies on.
pub fn made_ordered_lists_are_good<P: Ruled>()
    ensures { (ops : List Operation) → Made ordered P.rules ops → IsOrderedGood ops }
{}

/// Under a policy that writes each value as it is, or decides nothing, an ordered step changes the map as its writes say.
pub fn keeping_policies_keep_the_ordered_map<P: Ruled>()
    ensures keeps { (ops : List Operation) (ws : List Write) (policy : P) (meta : Option Bytes)
        (key : Bytes) → OnlyKeeps P.rules
        → value_of (step ordered P.rules ops ws policy meta) key
        ≡ overwritten (write_of (last_writes ws) key) (value_of ops key) }
    ensures holds { (ops : List Operation) (ws : List Write) (policy : P) (meta : Option Bytes)
        (key : Bytes) → NeverMoves P.rules
        → value_of (step ordered P.rules ops ws policy meta) key
        ≡ overwritten (write_of (last_writes ws) key) (value_of ops key) }
{}

/// A beginning of a made list that ends with a commit is itself made, and its floor is not above the list's.
pub fn beginnings_of_made_lists_are_made<P: Ruled>()
    ensures unordered { (front ops : List Operation) → Made unordered P.rules ops → Begins front ops
        → IsCommitEnded front
        → Made unordered P.rules front × (floor front ≤ floor ops) }
    ensures ordered { (front ops : List Operation) → Made ordered P.rules ops → Begins front ops
        → IsCommitEnded front
        → Made ordered P.rules front × (floor front ≤ floor ops) }
{}

/// So it is good.
pub fn beginnings_of_made_lists_are_good<P: Ruled>()
    ensures unordered { (front ops : List Operation) → Made unordered P.rules ops → Begins front ops
        → IsCommitEnded front
        → IsGood front }
    ensures ordered { (front ops : List Operation) → Made ordered P.rules ops → Begins front ops
        → IsCommitEnded front
        → IsOrderedGood front }
{}

/// The order of keys is a strict total order, and a key comes before what it begins.
pub fn keys_are_in_a_total_order()
    ensures irreflexive { (a : Bytes) → key_lt a a ≡ false }
    ensures transitive { (a b c : Bytes) → key_lt a b ≡ true → key_lt b c ≡ true
        → key_lt a c ≡ true }
    ensures total { (a b : Bytes) → key_lt a b ≡ false → key_lt b a ≡ false → a ≡ b }
    ensures prefix { (a : Bytes) (c : ℕ) (cs : Bytes) → key_lt a (a ++ c ∷ cs) ≡ true }
{}

/// The successor of a key among others is the next of them on the way up, and its predecessor the next on the way down; only among no keys is there none.
pub fn successors_are_next()
    ensures successor { (keys : List Bytes) (key next : Bytes) → (successor keys key ≡ Some next)
        ↔ IsNext keys key next }
    ensures predecessor { (keys : List Bytes) (key previous : Bytes)
        → (predecessor keys key ≡ Some previous)
        ↔ IsPrevious keys key previous }
    ensures some_successor { (keys : List Bytes) (key k : Bytes) → contains_key keys k ≡ true
        → is_some (successor keys key) ≡ true }
    ensures some_predecessor { (keys : List Bytes) (key k : Bytes) → contains_key keys k ≡ true
        → is_some (predecessor keys key) ≡ true }
    ensures turned { (keys : List Bytes) (key next : Bytes) → contains_key keys key ≡ true
        → contains_key keys next ≡ true → (successor keys key ≡ Some next)
        ↔ (predecessor keys next ≡ Some key) }
{}

/// How successors change with a new key, among the keys of two lists, and without some keys.
pub fn successors_change_with_the_keys()
    ensures same { (xs ys : List Bytes) (key : Bytes)
        → ((x : Bytes) → contains_key xs x ≡ contains_key ys x)
        → successor xs key ≡ successor ys key }
    ensures new { (keys : List Bytes) (key next k : Bytes) → successor keys key ≡ Some next
        → successor (k ∷ keys) key ≡ Some (if between key next k then k else next) }
    ensures both { (xs ys : List Bytes) (key next other : Bytes) → successor xs key ≡ Some next
        → successor ys key ≡ Some other
        → successor (xs ++ ys) key ≡ Some (if between key next other then other else next) }
    ensures kept { (keys : List Bytes) (key next gone : Bytes) → successor keys key ≡ Some next
        → bytes_eq next gone ≡ false
        → successor (without (gone ∷ []) keys) key ≡ Some next }
    ensures gone { (keys : List Bytes) (key gone next : Bytes) → successor keys key ≡ Some gone
        → successor keys gone ≡ Some next → bytes_eq next gone ≡ false
        → successor (without (gone ∷ []) keys) key ≡ Some next }
    ensures skipped { (keys fewer : List Bytes) (key gone : Bytes)
        → ((x : Bytes) → contains_key fewer x ≡ true → contains_key keys x ≡ true)
        → successor keys key ≡ Some gone → contains_key fewer gone ≡ false
        → successor fewer key ≡ successor fewer gone }
{}

/// And predecessors.
pub fn predecessors_change_with_the_keys()
    ensures same { (xs ys : List Bytes) (key : Bytes)
        → ((x : Bytes) → contains_key xs x ≡ contains_key ys x)
        → predecessor xs key ≡ predecessor ys key }
    ensures new { (keys : List Bytes) (key previous k : Bytes)
        → predecessor keys key ≡ Some previous
        → predecessor (k ∷ keys) key ≡ Some (if between previous key k then k else previous) }
    ensures both { (xs ys : List Bytes) (key previous other : Bytes)
        → predecessor xs key ≡ Some previous → predecessor ys key ≡ Some other
        → predecessor (xs ++ ys) key
        ≡ Some (if between previous key other then other else previous) }
    ensures kept { (keys : List Bytes) (key previous gone : Bytes)
        → predecessor keys key ≡ Some previous → bytes_eq previous gone ≡ false
        → predecessor (without (gone ∷ []) keys) key ≡ Some previous }
    ensures gone { (keys : List Bytes) (key gone previous : Bytes)
        → predecessor keys key ≡ Some gone → predecessor keys gone ≡ Some previous
        → bytes_eq previous gone ≡ false
        → predecessor (without (gone ∷ []) keys) key ≡ Some previous }
    ensures skipped { (keys fewer : List Bytes) (key gone : Bytes)
        → ((x : Bytes) → contains_key fewer x ≡ true → contains_key keys x ≡ true)
        → predecessor keys key ≡ Some gone → contains_key fewer gone ≡ false
        → predecessor fewer key ≡ predecessor fewer gone }
{}

/// Keys in key order are the same keys and do not fall, keys once are the same and differ, and keys that rise are known by which they are.
pub fn keys_are_sorted_once()
    ensures sorted { (keys : List Bytes) → IsSortedBy key_lt (by_key keys) }
    ensures moved { (keys : List Bytes) → IsPermutation keys (by_key keys) }
    ensures differ { (keys : List Bytes) → IsDistinct bytes_eq (once keys) }
    ensures same { (keys : List Bytes) (key : Bytes)
        → contains_key (once keys) key ≡ contains_key keys key }
    ensures rise { (keys : List Bytes) → IsDistinct bytes_eq keys
        → IsStrictlySortedBy (slice_cmp nat_cmp) (by_key keys) }
    ensures known { (xs keys : List Bytes) → IsStrictlySortedBy (slice_cmp nat_cmp) xs
        → ((x : Bytes) → contains_key xs x ≡ contains_key keys x) → xs ≡ by_key (once keys) }
{}

/// A proof of items of a list verifies against the list's root.
pub fn a_proof_of_a_list_verifies()
    ensures { (hash : Bytes → Bytes) (shape : Shape) (items : List Bytes) (a b inactive : ℕ) → a < b
        → b ≤ length items → length items ≤ 2 ^ 62 → inactive ≤ length (peaks shape (length items))
        → let leaves = item_leaves hash shape 0 items in
        verdict hash shape (take (b - a) (drop a items)) a (proof_of hash shape leaves inactive a b)
        (root hash shape leaves inactive)
        ≡ true }
{}

/// Of each form an operation is what its spelling is decoded to, bytes are decoded to no operation but the one that they spell,
/// and so two spellings that are equal are of one operation.
pub fn spellings_are_decoded()
    ensures spelled { (form : Form) (op : Operation) → IsOf form op
        → decoded form (spelling form op) ≡ Some op }
    ensures decoded { (form : Form) (bytes : Bytes) (op : Operation) → All (λ b. b < 256) bytes
        → decoded form bytes ≡ Some op
        → IsSpelling form bytes op }
    ensures once { (form : Form) (a b : Operation) → IsOf form a → IsOf form b
        → spelling form a ≡ spelling form b
        → a ≡ b }
{}

/// The leaves of an operation list are those of the operations' spellings.
pub fn operations_are_hashed_by_their_spellings()
    ensures { (hash : Bytes → Bytes) (shape : Shape) (form : Form) (i : ℕ) (ops : List Operation)
        → leaves_from hash shape form i ops ≡ item_leaves hash shape i (map (spelling form) ops) }
{}

/// Each bit below the floor of a list is clear, and each chunk below it is zeros.
pub fn bits_below_the_floor_are_clear()
    ensures bit { (ops : List Operation) (i : ℕ) → IsGood ops → i < floor ops
        → slice_index_or (bits ops) i false ≡ false }
    ensures chunk { (g : ℕ) (ops : List Operation) (c : ℕ) → 3 ≤ g → IsGood ops
        → suc c * 2 ^ g ≤ floor ops
        → chunk_of g ops c ≡ replicate (chunk_size g) 0 }
{}

/// A step clears the bit of an update whose key it writes again, and that of the commit at the list's end.
pub fn a_step_clears_what_it_supersedes<P: Ruled>()
    ensures update { (kind : Kind) (ops : List Operation) (ws : List Write) (policy : P)
        (meta : Option Bytes) (i : ℕ) (key value : Bytes) (next : Option Bytes)
        → let after = step kind P.rules ops ws policy meta in
        slice_get ops i ≡ Some (update key value next)
        → touched key (drop (length ops) after) ≡ true
        → slice_get (bits after) i ≡ Some false }
    ensures commit { (kind : Kind) (ops : List Operation) (ws : List Write) (policy : P)
        (meta : Option Bytes) → IsCommitEnded ops
        → slice_get (bits (step kind P.rules ops ws policy meta)) (length ops - 1) ≡ Some false }
{}

/// A range proof of a list verifies against the list's canonical root.
pub fn a_range_proof_of_a_list_verifies()
    ensures { (hash : Bytes → Bytes) (shape : Shape) (g : ℕ) (form : Form) (ops : List Operation)
        (a b : ℕ) → a < b → b ≤ length ops → length ops ≤ 2 ^ 62
        → range_verdict hash shape g (take (b - a) (drop a (map (spelling form) ops))) a
        (chunks_of g ops a b) (range_proof hash shape g form ops a b)
        (canonical hash shape g form ops)
        ≡ true }
{}

/// What an opening finds in an own store is what it finds in the store's list.
pub fn own_stores_open_alike<P>()
    ensures { (e : Engine P) (log : Log) (s : Stored) → IsOwn e log s
        → found e.layout s ≡ found_in e log }
{}

/// Metadata that is written of a list is read as the list's.
pub fn metadata_is_read<P>()
    ensures { (e : Engine P) (c : Chunks) (log : Log) → e.layout.chunks ≡ Some c
        → log.chunks * 2 ^ c.height ≤ 2 ^ 62 → ((m : Bytes) → length (e.hash m) ≡ e.layout.digest_size)
        → length (peaks e.layout.shape log.chunks) ≤ 2 ^ 64 → log.chunks < 2 ^ 64
        → IsCounted e c log
        (entries_of (metadata e.hash e.layout.shape c.height e.layout.form log.list log.chunks)) }
{}

/// The empty store is an own store.
pub fn the_empty_store_is_own<P>()
    ensures { (e : Engine P) → peaks e.layout.shape 0 ≡ [] → IsOwn e no_log empty }
{}

/// An accepted opening of any databases takes up the longest commit-ended beginning of the store's list within the bound or, of an empty store, the fresh list, and the store stays own.
pub fn openings_take_up_beginnings<P: Ruled>()
    ensures unordered { (hash : Bytes → Bytes) (form : Form) (shape : Shape) (digest_size : ℕ)
        → OpensParts (any_engine unordered P.rules hash form shape digest_size) }
    ensures ordered { (hash : Bytes → Bytes) (form : Form) (shape : Shape) (digest_size : ℕ)
        → OpensParts (any_engine ordered P.rules hash form shape digest_size) }
{}

/// A crash leaves of an own store of any databases, at rest, an own store of a beginning of its list.
pub fn crashes_leave_own_stores<P: Ruled>()
    ensures unordered { (hash : Bytes → Bytes) (form : Form) (shape : Shape) (digest_size : ℕ)
        (log : Log) (s image : Stored)
        → let e = any_engine unordered P.rules hash form shape digest_size in
        IsOwn e log s → (i : IsImage s image) → IsOwn e (left_at i.to log) image }
    ensures ordered { (hash : Bytes → Bytes) (form : Form) (shape : Shape) (digest_size : ℕ)
        (log : Log) (s image : Stored)
        → let e = any_engine ordered P.rules hash form shape digest_size in
        IsOwn e log s → (i : IsImage s image) → IsOwn e (left_at i.to log) image }
{}

/// If the head of an own store of any databases has the length of the pins at its start, an opening without a bound accepts it, and takes up no less than what is settled. An unordered database's form is that of updates without a next key.
pub fn own_stores_are_opened<P: Ruled>()
    ensures unordered { (hash : Bytes → Bytes) (form : Form) (shape : Shape) (digest_size : ℕ)
        (log : Log)
        → let e = any_engine unordered P.rules hash form shape digest_size in
        form.ordered ≡ false → IsKept e log
        → length (head_of e log) ≡ digest_size * length (peaks shape log.start)
        → OpensWhole e log }
    ensures ordered { (hash : Bytes → Bytes) (form : Form) (shape : Shape) (digest_size : ℕ)
        (log : Log)
        → let e = any_engine ordered P.rules hash form shape digest_size in
        IsKept e log → length (head_of e log) ≡ digest_size * length (peaks shape log.start)
        → OpensWhole e log }
{}

/// A crash at any moment inside a call, or after it, leaves of an own store of any databases one that is between the log before the call and the log after it.
pub fn crashes_inside_calls_leave_own_stores<P: Ruled>()
    ensures unordered { (hash : Bytes → Bytes) (form : Form) (shape : Shape) (digest_size : ℕ)
        → CrashLaws (any_engine unordered P.rules hash form shape digest_size) }
    ensures ordered { (hash : Bytes → Bytes) (form : Form) (shape : Shape) (digest_size : ℕ)
        → CrashLaws (any_engine ordered P.rules hash form shape digest_size) }
{}

/// Of current databases over such a family: what an accepted opening takes up, if no node waits that it does not ask for; what a crash leaves at rest; and what one leaves at any moment inside a call, also of a prune that counts more chunks first.
pub fn current_stores_stay_own<P: Ruled>()
    ensures unordered_openings { (hash : Bytes → Bytes) (form : Form) (shape : Shape)
        (digest_size : ℕ) (c : Chunks) → ArePrompt (Some c) shape
        → OpensParts (current_engine unordered P.rules hash form shape digest_size c) }
    ensures ordered_openings { (hash : Bytes → Bytes) (form : Form) (shape : Shape)
        (digest_size : ℕ) (c : Chunks) → ArePrompt (Some c) shape
        → OpensParts (current_engine ordered P.rules hash form shape digest_size c) }
    ensures unordered_rest { (hash : Bytes → Bytes) (form : Form) (shape : Shape) (digest_size : ℕ)
        (c : Chunks) (births : Births) (log : Log) (s image : Stored) → HasPlaces shape births
        → 3 ≤ c.height
        → let e = current_engine unordered P.rules hash form shape digest_size c in
        IsOwn e log s → (i : IsImage s image) → IsOwn e (left_at i.to log) image }
    ensures ordered_rest { (hash : Bytes → Bytes) (form : Form) (shape : Shape) (digest_size : ℕ)
        (c : Chunks) (births : Births) (log : Log) (s image : Stored) → HasPlaces shape births
        → 3 ≤ c.height
        → let e = current_engine ordered P.rules hash form shape digest_size c in
        IsOwn e log s → (i : IsImage s image) → IsOwn e (left_at i.to log) image }
    ensures unordered_inside { (hash : Bytes → Bytes) (form : Form) (shape : Shape)
        (digest_size : ℕ) (c : Chunks) (births : Births) → HasPlaces shape births → 3 ≤ c.height
        → CrashLaws (current_engine unordered P.rules hash form shape digest_size c) }
    ensures ordered_inside { (hash : Bytes → Bytes) (form : Form) (shape : Shape) (digest_size : ℕ)
        (c : Chunks) (births : Births) → HasPlaces shape births → 3 ≤ c.height
        → CrashLaws (current_engine ordered P.rules hash form shape digest_size c) }
{}

/// If more chunks need no smaller size, and the head of an own store of current databases has the length of the pins at its start, an opening without a bound accepts it, and takes up no less than what is settled; so it does after a crash at any moment.
pub fn current_stores_are_opened<P: Ruled>()
    ensures unordered { (hash : Bytes → Bytes) (form : Form) (shape : Shape) (digest_size : ℕ)
        (c : Chunks) (log : Log) → NeedsRise (Some c) shape
        → let e = current_engine unordered P.rules hash form shape digest_size c in
        form.ordered ≡ false → IsKept e log
        → length (head_of e log) ≡ digest_size * length (peaks shape log.start)
        → OpensWhole e log }
    ensures ordered { (hash : Bytes → Bytes) (form : Form) (shape : Shape) (digest_size : ℕ)
        (c : Chunks) (log : Log) → NeedsRise (Some c) shape
        → let e = current_engine ordered P.rules hash form shape digest_size c in
        IsKept e log → length (head_of e log) ≡ digest_size * length (peaks shape log.start)
        → OpensWhole e log }
    ensures unordered_between { (hash : Bytes → Bytes) (form : Form) (shape : Shape)
        (digest_size : ℕ) (c : Chunks) (births : Births) (before after : Log) (s : Stored)
        → HasPlaces shape births → 3 ≤ c.height → ArePrompt (Some c) shape
        → NeedsRise (Some c) shape
        → let e = current_engine unordered P.rules hash form shape digest_size c in
        form.ordered ≡ false → (is : IsBetween e before after s)
        → length (head_of e is.log) ≡ digest_size * length (peaks shape is.log.start)
        → OpensBetween e before after s }
    ensures ordered_between { (hash : Bytes → Bytes) (form : Form) (shape : Shape) (digest_size : ℕ)
        (c : Chunks) (births : Births) (before after : Log) (s : Stored) → HasPlaces shape births
        → 3 ≤ c.height → ArePrompt (Some c) shape → NeedsRise (Some c) shape
        → let e = current_engine ordered P.rules hash form shape digest_size c in
        (is : IsBetween e before after s)
        → length (head_of e is.log) ≡ digest_size * length (peaks shape is.log.start)
        → OpensBetween e before after s }
{}

/// If its head has the length of the pins at its start, a store of any databases that is between two logs is opened without a bound, to a commit-ended beginning of one of the two lists or to the fresh one, no shorter than what was settled and stays.
pub fn what_crashes_leave_is_opened<P: Ruled>()
    ensures unordered { (hash : Bytes → Bytes) (form : Form) (shape : Shape) (digest_size : ℕ)
        (before after : Log) (s : Stored)
        → let e = any_engine unordered P.rules hash form shape digest_size in
        form.ordered ≡ false → (is : IsBetween e before after s)
        → length (head_of e is.log) ≡ digest_size * length (peaks shape is.log.start)
        → OpensBetween e before after s }
    ensures ordered { (hash : Bytes → Bytes) (form : Form) (shape : Shape) (digest_size : ℕ)
        (before after : Log) (s : Stored)
        → let e = any_engine ordered P.rules hash form shape digest_size in
        (is : IsBetween e before after s)
        → length (head_of e is.log) ≡ digest_size * length (peaks shape is.log.start)
        → OpensBetween e before after s }
{}
