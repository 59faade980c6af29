//! The values under one index key.

ghost use Rattle.std.specs.Prelude.{◌≡◌, ◌≢◌, ◌<◌, [], ◌∷◌, ◌++◌, length, set, remove, OnOk, OnErr};
ghost use Rattle.qm_index.specs.Held.{values_in, IsHeld};

use crate::value::IndexValue;
use std::alloc::{AllocError, Global};
use std::marker::Model;
use std::mem::replace;

// The values under one index key, at least one. One value takes no allocation.
#[derive(Drop)]
pub struct Bucket<V> {
    held: Held<V>,
}

// How the values are held.
#[derive(Drop)]
pub enum Held<V> {
    One(V),
    More(Vec<V>),
}

impl<V> Model for Bucket<V> {
    ghost use Rattle.std.specs.Prelude.{List};
    ghost use Rattle.qm_index.specs.Held.{values_in, IsHeld};

    ghost Value = { List V };

    ghost view = { λ b. values_in b.held };

    ghost invariant = { λ b. IsHeld b.held };
}

impl<V: IndexValue> Bucket<V> {
    // The bucket of one value.
    pub fn of(value: V) -> Self
        ensures { result ≡ value ∷ [] }
    {
        Bucket {
            held: Held::One(value),
        }
    }

    // The values, in order.
    pub fn values(&self) -> &[V]
        ensures value { result.now ≡ self.now }
        ensures some { 0 < length self.now }
    {
        match &self.held {
            Held::One(value) => value.as_slice(),
            Held::More(values) => values,
        }
    }

    // Puts a value after the others. Want of memory leaves the bucket as it was.
    pub fn push(&mut self, alloc: Global, value: V) -> Result<(), AllocError>
        ensures ok { OnOk result (self.new ≡ self.old ++ value ∷ []) }
        ensures err { OnErr result (self.new ≡ self.old) }
        ensures some { self.new ≢ [] }
    {
        let held = replace(&mut self.held, Held::More(Vec::new(alloc)));
        let (held, pushed) = with_one_more(alloc, held, value);
        self.held = held;
        pushed
    }

    // Puts a value in the place of one.
    pub fn set(&mut self, i: usize, value: V)
        requires { i < length self.old }
        ensures value { self.new ≡ set self.old i value }
        ensures some { self.new ≢ [] }
    {
        match &mut self.held {
            Held::One(only) => *only = value,
            Held::More(values) => values[i] = value,
        }
    }

    // Takes one of several values out, and the later ones move down.
    #[tactic(auto, using(crate::proofs::Maps::remove_filled))]
    pub fn remove(&mut self, i: usize)
        requires place { i < length self.old }
        requires several { 1 < length self.old }
        ensures value { self.new ≡ remove self.old i }
        ensures some { self.new ≢ [] }
    {
        if let Held::More(values) = &mut self.held {
            values.remove(i);
            if values.len() == 1 {
                if let Some(last) = values.pop() {
                    self.held = Held::One(last);
                }
            }
        }
    }
}

// The values and one more, or the same ones if memory is wanted.
fn with_one_more<V: Drop>(
    alloc: Global,
    held: Held<V>,
    value: V,
) -> (Held<V>, Result<(), AllocError>)
    requires { IsHeld held }
    ensures held { IsHeld result.0 }
    ensures ok { OnOk result.1 (values_in result.0 ≡ values_in held ++ value ∷ []) }
    ensures err { OnErr result.1 (values_in result.0 ≡ values_in held) }
{
    match held {
        Held::One(first) => match Vec::with_capacity(alloc, 2) {
            Ok(mut values) => {
                values.push_reserved(first);
                values.push_reserved(value);
                (Held::More(values), Ok(()))
            }
            Err(wanted) => (Held::One(first), Err(wanted)),
        },
        Held::More(mut values) => match values.push(value) {
            Ok(()) => (Held::More(values), Ok(())),
            Err(_) => (Held::More(values), Err(AllocError)),
        },
    }
}
