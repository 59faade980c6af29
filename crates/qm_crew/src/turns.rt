//! Turns: each member of a crew works for itself.

ghost use Rattle.std.specs.Prelude.{ℕ};
ghost use Rattle.qm_crew.specs.Turned.{AreTurned, Turns};

use qm_base::Gate;
use std::thread;
use std::thread::Threads;

/// What takes turns beside others of its kind.
pub trait Turning: Send {
    /// How much it has left to do, with what it has to look at.
    ghost left: { Self → ℕ };

    /// What a turn may make of it.
    ghost may_turn: { Self → Self → Type 0 };

    /// Works until it is done or has to ask. It is the crew's member `number`, counted from 0, and calls the gate's `take` by that before each operation.
    fn turn<G: Gate>(&mut self, gate: &G, number: usize)
        ensures { Turns left may_turn self.old self.new };
}

/// Has each member take its turn, side by side. Each call starts as many threads as there are members, less one; if none can be made, members work one after the other.
pub fn turn_all<R: Threads + Sync, G: Gate, W: Turning>(rt: &R, gate: &G, crew: &mut [W])
    ensures { AreTurned (Turns W.left W.may_turn) crew.old crew.new }
{
    let threads = crew.len().max(1);
    thread::for_each_mut(
        rt,
        crew,
        threads,
        &|i: usize, worker: &mut W| { worker.turn(gate, i) },
    );
}

/// Has each member take its turn, one after the other, in the thread of the caller.
pub fn turn_each<G: Gate, W: Turning>(gate: &G, crew: &mut [W])
    ensures { AreTurned (Turns W.left W.may_turn) crew.old crew.new }
{
    for i in 0..crew.len() {
        crew[i].turn(gate, i);
    }
}
