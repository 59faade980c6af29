//! What a policy is asked about, and what it answers.

ghost use Rattle.std.specs.Prelude.{◌≡◌};
ghost use Rattle.qm_chain.specs.declared.entry.Action.TheVariants as actions;

use qm_base::Location;
use std::marker::{Model, PhantomData};

/// A live update that a walk came to. It borrows the key and owns the value, so that no decision but one with a value of its
/// own takes memory.
#[derive(Drop)]
pub struct Entry<'a, F, K, V> {
    location: Location<F>,
    key: &'a K,
    value: V,
    remaining: usize,
}

impl<'a, F, K, V> Model for Entry<'a, F, K, V> {
    ghost use Rattle.qm_chain.specs.Seen.{Seen};

    ghost Value = { Seen K V };

    ghost view = { λ e. record { location = e.location; key = e.key.now; value = e.value; remaining = e.remaining } };
}

impl<'a, F, K, V> Entry<'a, F, K, V> {
    /// The entry of a live update, before whose decision so many entries are left.
    pub fn new(location: Location<F>, key: &'a K, value: V, remaining: usize) -> Self
        ensures { result ≡ record { location = location; key = key.now; value = value; remaining = remaining } }
    {
        Entry {
            location,
            key,
            value,
            remaining,
        }
    }

    /// Where the update stands: the floor, when the policy is asked.
    pub fn location(&self) -> Location<F>
        ensures { result ≡ self.now.location }
    {
        Location::new(self.location.get())
    }

    /// Its key.
    pub fn key(&self) -> &K
        ensures { result.now ≡ self.now.key }
    {
        self.key
    }

    /// Its value.
    pub fn value(&self) -> &V
        ensures { result.now ≡ self.now.value }
    {
        &self.value
    }

    /// How many entries the walk has left before this decision, this one included.
    pub fn remaining(&self) -> usize
        ensures { result ≡ self.now.remaining }
    {
        self.remaining
    }

    /// Writes the key again with its value, and goes on.
    pub fn keep(self) -> Decision<'a, V>
        ensures { result ≡ actions.Write self.entry.value }
    {
        Decision {
            action: Action::Write(self.value),
            entry: PhantomData,
        }
    }

    /// Writes the key with another value, and goes on.
    pub fn replace(self, value: V) -> Decision<'a, V>
    where
        V: Drop,
        ensures { result ≡ actions.Write value }
    {
        Decision {
            action: Action::Write(value),
            entry: PhantomData,
        }
    }

    /// Ends the walk before the update.
    pub fn stop(self) -> Decision<'a, V>
    where
        V: Drop,
        ensures { result ≡ actions.Stop }
    {
        Decision {
            action: Action::Stop,
            entry: PhantomData,
        }
    }

    /// Deletes the key, and goes on. The value is handed back.
    pub fn evict(self) -> (Decision<'a, V>, V)
        ensures decision { result.0 ≡ actions.Evict }
        ensures value { result.1 ≡ self.entry.value }
    {
        let decision = Decision {
            action: Action::Evict,
            entry: PhantomData,
        };
        (decision, self.value)
    }
}

/// What a policy decides of an entry. Only an entry makes one, and it is used up by that; its lifetime is the entry's, so that
/// no policy keeps one for another entry.
#[derive(Drop)]
pub struct Decision<'a, V> {
    action: Action<V>,
    entry: PhantomData<&'a ()>,
}

impl<'a, V> Model for Decision<'a, V> {
    ghost use Rattle.qm_chain.specs.declared.entry.Action.{Action};

    ghost Value = { Action V };

    ghost view = { λ d. d.action };
}

impl<'a, V> Decision<'a, V> {
    /// What the walk is to do.
    pub fn into_action(self) -> Action<V>
        ensures { result ≡ self.entry }
    {
        self.action
    }
}

/// What a walk does with the live update that it came to.
#[derive(Drop)]
pub enum Action<V> {
    /// It writes the key with this value, and goes on.
    Write(V),
    /// It ends before the update.
    Stop,
    /// It deletes the key, and goes on.
    Evict,
}
