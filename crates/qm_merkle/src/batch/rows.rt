//! The nodes above replaced leaves, row by row.

ghost use Rattle.std.specs.Prelude.{◌≡◌, ◌≢◌, ◌↔◌, ℕ, suc, ◌*◌, Some, List, [], All, IsSome, IfOk, OnOk, OnErr, ◌<◌, ◌≤◌, ◌^◌, ◌+◌, ◌-◌, ◌/◌, IsTrue, None, length};
ghost use Rattle.std.specs.Ordering.{nat_cmp};
ghost use Rattle.std.specs.BTreeMap.{insert_entry};
ghost use Rattle.qm_model.specs.Trees as trees;
ghost use Rattle.qm_merkle.specs.Batches.{found_at, replaced_from, IsOver, AreThere, AreRead, AreRight, AreOver, HaveOver, IsRow};
ghost use Rattle.qm_merkle.specs.Mems.{more};

use super::UnmerkleizedBatch;
use crate::family::{Family, Node, halves, place};
use crate::hasher::StandardHasher;
use crate::mem::Mem;
use qm_base::{Digest, Hasher, Location};
use std::alloc::{AllocError, Global};
use std::collections::BTreeMap;

impl<F: Family, D: Digest> UnmerkleizedBatch<F, D> {
    // The nodes that were there before the batch and stand above a replaced leaf, with the leaf, row by row.
    pub(crate) fn replaced_nodes<H: Hasher<Digest = D>>(
        &self,
        alloc: Global,
        mem: &Mem<F, D>,
        hasher: &mut StandardHasher<H>,
    ) -> Result<BTreeMap<u64, D>, AllocError>
        requires there { AreThere F.shape self.now.layers mem.now self.now.base }
        requires start { All (λ e. mem.now.start ≤ e.0) self.now.replaced }
        ensures own { IfOk result (λ m.
            HaveOver F.shape self.now.replaced self.now.base m.entries) }
        ensures digests { (list : List (List ℕ)) → length list ≡ self.now.base
            → AreRead F.shape D.bytes H.hash self.now.layers mem.now list
            → IfOk result (λ m. AreRight F.shape D.bytes H.hash m.entries
            (replaced_from D.bytes self.now.replaced 0 list)) }
        ensures count { IfOk result (λ m. length self.now.replaced ≤ length m.entries) }
        ensures few { (k : ℕ) → self.now.base < 2 ^ suc k
            → IfOk result (λ m. length m.entries ≤ length self.now.replaced * suc k) }
        ensures made { IfOk result (λ m.
            hasher.new ≡ more hasher.old (length m.entries - length self.now.replaced)) }
    {
        let mut nodes = BTreeMap::new(alloc);
        let mut row = self.replaced_leaves(alloc, &mut nodes)?;
        for height in 1..63 {
            row = self.row_above(alloc, mem, hasher, &mut nodes, height, &row)?;
        }
        Ok(nodes)
    }

    // The nodes of this height that stand above a row of replaced nodes, into the nodes; and their row.
    fn row_above<H: Hasher<Digest = D>>(
        &self,
        alloc: Global,
        mem: &Mem<F, D>,
        hasher: &mut StandardHasher<H>,
        nodes: &mut BTreeMap<u64, D>,
        height: u32,
        row: &[u64],
    ) -> Result<Vec<u64>, AllocError>
        requires few { self.now.base ≤ 2 ^ 62 }
        requires there { AreThere F.shape self.now.layers mem.now self.now.base }
        requires start { All (λ e. mem.now.start ≤ e.0) self.now.replaced }
        requires height { (0 < height) × (height < 63) }
        requires own { AreOver F.shape self.now.replaced self.now.base (height - 1)
            nodes.old.entries }
        requires row { IsRow F.shape self.now.base (height - 1) nodes.old.entries row.now }
        ensures own { OnOk result
            (AreOver F.shape self.now.replaced self.now.base height nodes.new.entries) }
        ensures row { IfOk result (λ v.
            IsRow F.shape self.now.base height nodes.new.entries v.items) }
        ensures digests { (list : List (List ℕ)) → length list ≡ self.now.base
            → AreRead F.shape D.bytes H.hash self.now.layers mem.now list
            → AreRight F.shape D.bytes H.hash nodes.old.entries
            (replaced_from D.bytes self.now.replaced 0 list)
            → OnOk result (AreRight F.shape D.bytes H.hash nodes.new.entries
            (replaced_from D.bytes self.now.replaced 0 list)) }
        ensures count { IfOk result (λ v.
            length nodes.new.entries ≡ length nodes.old.entries + length v.items) }
        ensures fewer { IfOk result (λ v. length v.items ≤ length row.now) }
        ensures none { self.now.base < 2 ^ height → IfOk result (λ v. length v.items ≡ 0) }
        ensures made { OnOk result
            (hasher.new ≡ more hasher.old (length nodes.new.entries - length nodes.old.entries)) }
    {
        let mut above = Vec::with_capacity(alloc, row.len())?;
        for index in row {
            let node = Node::new(height, *index / 2);
            let number = place::<F>(node).get();
            if !nodes.contains_key(&number) && self.is_below(node) {
                let digest = self.parent(mem, hasher, nodes, node);
                replace(nodes, number, digest)?;
                above.push_reserved(node.index());
            }
        }
        Ok(above)
    }

    // The digest of a node over its two halves.
    fn parent<H: Hasher<Digest = D>>(
        &self,
        mem: &Mem<F, D>,
        hasher: &mut StandardHasher<H>,
        nodes: &BTreeMap<u64, D>,
        node: Node,
    ) -> D
        requires few { self.now.base ≤ 2 ^ 62 }
        requires there { AreThere F.shape self.now.layers mem.now self.now.base }
        requires start { All (λ e. mem.now.start ≤ e.0) self.now.replaced }
        requires high { 0 < node.height }
        requires below { trees.Shape.birth F.shape node ≤ self.now.base }
        requires above { IsOver self.now.replaced node.height node.index }
        requires own { (x : trees.Node) → trees.Shape.birth F.shape x ≤ self.now.base
            → x.height < node.height
            → (IsSome (found_at nodes.now.entries (trees.Shape.position F.shape x))
            ↔ IsOver self.now.replaced x.height x.index) }
        ensures digest { (list : List (List ℕ)) → length list ≡ self.now.base
            → AreRead F.shape D.bytes H.hash self.now.layers mem.now list
            → AreRight F.shape D.bytes H.hash nodes.now.entries
            (replaced_from D.bytes self.now.replaced 0 list)
            → D.bytes result
            ≡ trees.digest_of H.hash F.shape (replaced_from D.bytes self.now.replaced 0 list) node }
        ensures made { hasher.new ≡ more hasher.old 1 }
    {
        let (left, right) = halves(node);
        let left = self.digest(mem, nodes, place(left));
        let right = self.digest(mem, nodes, place(right));
        hasher.node_digest(F::number(node), &left, &right)
    }
}

impl<F: Family, D: Copy> UnmerkleizedBatch<F, D> {
    // The replaced leaves, into the nodes; and their row.
    fn replaced_leaves(
        &self,
        alloc: Global,
        nodes: &mut BTreeMap<u64, D>,
    ) -> Result<Vec<u64>, AllocError>
        requires { nodes.old.entries ≡ [] }
        ensures few { self.now.base ≤ 2 ^ 62 }
        ensures own { OnOk result
            (AreOver F.shape self.now.replaced self.now.base 0 nodes.new.entries) }
        ensures row { IfOk result (λ v. IsRow F.shape self.now.base 0 nodes.new.entries v.items) }
        ensures digests { (bytes : D → List ℕ) (hash : List ℕ → List ℕ) (list : List (List ℕ))
            → length list ≡ self.now.base
            → OnOk result (AreRight F.shape bytes hash nodes.new.entries
            (replaced_from bytes self.now.replaced 0 list)) }
        ensures count { OnOk result (length nodes.new.entries ≡ length self.now.replaced) }
        ensures rows { IfOk result (λ v. length v.items ≡ length self.now.replaced) }
    {
        let mut row = Vec::with_capacity(alloc, self.replaced.len())?;
        for (location, digest) in &self.replaced {
            let position = F::location_to_position(Location::new(*location));
            replace(nodes, position.get(), *digest)?;
            row.push_reserved(*location);
        }
        Ok(row)
    }
}

impl<F: Family, D> UnmerkleizedBatch<F, D> {
    // Whether a node is there before the batch's own leaves come.
    fn is_below(&self, node: Node) -> bool
        requires { trees.end_of node ≤ 2 ^ 62 }
        ensures { IsTrue result ↔ (trees.Shape.birth F.shape node ≤ self.now.base) }
    {
        F::peak_birth_size(place(node), node.height()).get() <= self.base.get()
    }
}

// Gives a number this digest.
pub(crate) fn replace<D: Copy>(
    entries: &mut BTreeMap<u64, D>,
    number: u64,
    digest: D,
) -> Result<(), AllocError>
    ensures entries { OnOk result
        (entries.new.entries ≡ insert_entry nat_cmp entries.old.entries number digest) }
    ensures here { OnOk result (found_at entries.new.entries number ≡ Some digest) }
    ensures other { OnOk result
        ((n : ℕ) → n ≢ number → found_at entries.new.entries n ≡ found_at entries.old.entries n) }
    ensures count { found_at entries.old.entries number ≡ None
        → OnOk result (length entries.new.entries ≡ length entries.old.entries + 1) }
    ensures err { OnErr result (entries.new.entries ≡ entries.old.entries) }
{
    entries.insert(number, digest)?;
    Ok(())
}
