//! Strings of bytes in a row, which share one buffer.

ghost use Rattle.std.specs.Prelude.{◌≡◌, ℕ, ◌+◌, ◌-◌, ◌<◌, ◌≤◌, List, [], ◌∷◌, ◌++◌, length, map, take, drop, slice_get, slice_index};
ghost use Rattle.std.specs.Prelude.{All, Some, IfOk, OnOk, OnErr, vec_len, vec_capacity};
ghost use Rattle.std.specs.List.{sum_by};
ghost use Rattle.qm_memory.specs.Mem.{cut, AreEnds};

use std::alloc::{AllocError, Global};
use std::marker::Model;

// The items one after another, and where each ends.
#[derive(Drop)]
pub(crate) struct Items {
    bytes: Vec<u8>,
    ends: Vec<usize>,
}

impl Model for Items {
    ghost use Rattle.std.specs.Prelude.{ℕ, List, length};
    ghost use Rattle.qm_memory.specs.Mem.{cut, AreEnds};

    ghost Value = { List (List ℕ) };

    ghost view = { λ s. cut 0 s.ends.items s.bytes.items };

    ghost invariant = { λ s. AreEnds 0 s.ends.items (length s.bytes.items) };
}

impl Items {
    pub(crate) fn new(alloc: Global) -> Items
        ensures { result ≡ [] }
    {
        Items {
            bytes: Vec::new(alloc),
            ends: Vec::new(alloc),
        }
    }

    pub(crate) fn len(&self) -> usize
        ensures { result ≡ length self.now }
    {
        self.ends.len()
    }

    pub(crate) fn item(&self, at: usize) -> &[u8]
        requires { at < length self.now }
        ensures { slice_get self.now at ≡ Some result.now }
    {
        let (start, end) = place(&self.ends, at);
        &self.bytes[start..end]
    }

    // Puts copies after the last item. After an error nothing has changed.
    pub(crate) fn append(&mut self, added: &[Vec<u8>]) -> Result<(), AllocError>
        ensures ok { OnOk result (self.new ≡ self.old ++ map (λ v. v.items) added.now) }
        ensures err { OnErr result (self.new ≡ self.old) }
    {
        let more = byte_count(added)?;
        self.ends.reserve(added.len())?;
        self.bytes.reserve(more)?;
        put_all(&mut self.bytes, &mut self.ends, added);
        Ok(())
    }

    // Takes away the items after the first `count`.
    pub(crate) fn truncate(&mut self, count: usize)
        requires { count ≤ length self.old }
        ensures { self.new ≡ take count self.old }
    {
        let end = end_of_first(&self.ends, count);
        self.ends.truncate(count);
        self.bytes.truncate(end);
    }

    // Takes away the first items, so many; the others move down.
    pub(crate) fn remove_first(&mut self, count: usize)
        requires { count ≤ length self.old }
        ensures { self.new ≡ drop count self.old }
    {
        let gone = end_of_first(&self.ends, count);
        remove_front(&mut self.ends, count);
        remove_front(&mut self.bytes, gone);
        move_down(&mut self.ends, gone);
    }

    // A copy of the first items, so many.
    pub(crate) fn first(&self, alloc: Global, count: usize) -> Result<Items, AllocError>
        requires { count ≤ length self.now }
        ensures { IfOk result (λ items. items ≡ take count self.now) }
    {
        let end = end_of_first(&self.ends, count);
        Ok(Items {
            bytes: copy_of_front(alloc, &self.bytes, end)?,
            ends: copy_of_front(alloc, &self.ends, count)?,
        })
    }

    // A copy of the items after the first `count`.
    pub(crate) fn behind(&self, alloc: Global, count: usize) -> Result<Items, AllocError>
        requires { count ≤ length self.now }
        ensures { IfOk result (λ items. items ≡ drop count self.now) }
    {
        let gone = end_of_first(&self.ends, count);
        let bytes = copy_behind(alloc, &self.bytes, gone)?;
        let mut ends = copy_behind(alloc, &self.ends, count)?;
        move_down(&mut ends, gone);
        Ok(Items { bytes, ends })
    }
}

// Where the first items end, so many.
fn end_of_first(ends: &[usize], count: usize) -> usize
    requires { count ≤ length ends.now }
    ensures { result ≡ slice_index (0 ∷ ends.now) count }
{
    if count == 0 { 0 } else { ends[count - 1] }
}

// Where an item starts and ends.
fn place(ends: &[usize], at: usize) -> (usize, usize)
    requires { at < length ends.now }
    ensures start { result.0 ≡ slice_index (0 ∷ ends.now) at }
    ensures end { result.1 ≡ slice_index ends.now at }
{
    (end_of_first(ends, at), ends[at])
}

// Takes away the first elements, so many.
fn remove_front<T: Copy>(items: &mut Vec<T>, count: usize)
    requires { count ≤ vec_len items.old }
    ensures { items.new.items ≡ drop count items.old.items }
{
    items.copy_within(count.., 0);
    items.truncate(items.len() - count);
}

// A copy of the first elements, so many.
fn copy_of_front<T: Copy>(alloc: Global, items: &[T], count: usize) -> Result<Vec<T>, AllocError>
    requires { count ≤ length items.now }
    ensures { IfOk result (λ copy. copy.items ≡ take count items.now) }
{
    Vec::from_slice(alloc, &items[..count])
}

// A copy of the elements after the first `count`.
fn copy_behind<T: Copy>(alloc: Global, items: &[T], count: usize) -> Result<Vec<T>, AllocError>
    requires { count ≤ length items.now }
    ensures { IfOk result (λ copy. copy.items ≡ drop count items.now) }
{
    Vec::from_slice(alloc, &items[count..])
}

// Takes this from each end.
fn move_down(ends: &mut Vec<usize>, gone: usize)
    requires { All (λ end. gone ≤ end) ends.old.items }
    ensures { ends.new.items ≡ map (λ end. end - gone) ends.old.items }
{
    for end in ends.iter_mut() {
        *end -= gone;
    }
}

// How many bytes items have together.
fn byte_count(items: &[Vec<u8>]) -> Result<usize, AllocError>
    ensures { IfOk result (λ n. n ≡ sum_by (λ v. vec_len v) items.now) }
{
    let mut count: usize = 0;
    for item in items {
        count = count.checked_add(item.len()).ok_or(AllocError)?;
    }
    Ok(count)
}

// Puts copies after the last item. There is room for them.
fn put_all(bytes: &mut Vec<u8>, ends: &mut Vec<usize>, added: &[Vec<u8>])
    requires ends { AreEnds 0 ends.old.items (length bytes.old.items) }
    requires places { vec_len ends.old + length added.now ≤ vec_capacity ends.old }
    requires room { vec_len bytes.old + sum_by (λ v. vec_len v) added.now ≤ vec_capacity bytes.old }
    ensures ends { AreEnds 0 ends.new.items (length bytes.new.items) }
    ensures items { cut 0 ends.new.items bytes.new.items
        ≡ cut 0 ends.old.items bytes.old.items ++ map (λ v. v.items) added.now }
{
    for item in added {
        bytes.extend_from_slice(item).unwrap();
        ends.push_reserved(bytes.len());
    }
}
