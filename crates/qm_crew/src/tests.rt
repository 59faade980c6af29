//! A crew of two that takes a turn and marks, side by side.

ghost use Rattle.std.specs.Prelude.{All};
ghost use Rattle.qm_crew.specs.Crews.{IsReady, AreMarked};

use crate::{Board, ByCall, Marker, Runs, Turning, mark_all, marked_by, turn_all};
use qm_base::Gate;
use std::sync::atomic::{AtomicU64, Ordering};
use std::test::Fail;

// Where two workers wait for each other, for so many rounds at most.
#[derive(Drop)]
struct Meeting {
    entered: [AtomicU64; 2],
    met: [AtomicU64; 2],
}

impl Meeting {
    fn new() -> Self {
        Meeting {
            entered: [AtomicU64::new(0), AtomicU64::new(0)],
            met: [AtomicU64::new(0), AtomicU64::new(0)],
        }
    }

    fn enter(&self, worker: usize) {
        if worker < 2 {
            self.entered[worker].store(1, Ordering::SeqCst);
            for _ in 0..100_000_000u64 {
                if self.entered[1 - worker].load(Ordering::SeqCst) == 1 {
                    self.met[worker].store(1, Ordering::SeqCst);
                    break;
                }
            }
        }
    }

    fn have_met(&self) -> bool {
        self.met[0].load(Ordering::SeqCst) == 1 && self.met[1].load(Ordering::SeqCst) == 1
    }
}

// The workers meet at their second operation, and at their second mark.
#[derive(Drop)]
struct Meetings {
    operations: Meeting,
    marks: Meeting,
}

impl Gate for Meetings {
    fn take(&self, worker: usize, step: u64) {
        if step == 1 {
            self.operations.enter(worker);
        }
    }

    fn pass(&self, worker: usize, step: u64) {
        if step == 1 {
            self.marks.enter(worker);
        }
    }
}

// Has so many operations to do, and does all in one turn.
#[derive(Drop)]
struct Counter {
    left: u64,
}

impl Turning for Counter {
    ghost use Rattle.std.specs.Prelude.{◌≡◌};

    ghost left = { λ c. c.left };

    ghost may_turn = { λ _ new. new.left ≡ 0 };

    fn turn<G: Gate>(&mut self, gate: &G, number: usize) {
        for step in 0..self.left {
            gate.take(number, step);
        }
        self.left = 0;
    }
}

#[test]
fn two_workers_meet(rt: HostRuntime) -> Result<(), Fail> {
    let alloc = rt.alloc();
    let gate = Meetings {
        operations: Meeting::new(),
        marks: Meeting::new(),
    };
    let mut crew = vec![in alloc; Counter { left: 2 }, Counter { left: 3 }]?;
    let mut turns = ByCall {
        call: |crew: &mut [Counter]| { turn_all(&rt, &gate, crew) },
    };
    turns.run(crew.as_mut_slice());
    for counter in &crew {
        assert!(rt; counter.left == 0);
    }
    let mut marks = ByCall {
        call: |board: &Board, crew: &mut [Marker]|
            requires { All (IsReady board.now.table_id) crew.now }
            ensures { AreMarked board.entry.now.table_id crew.entry.now crew.exit.now }
        { mark_all(&rt, &gate, board, crew) },
    };
    let lists = vec![in alloc; vec![in alloc; 0u64, 5, 64]?, vec![in alloc; 5u64, 130, 1]?]?;
    let bits = marked_by(alloc, &mut marks, 3, lists)?;
    assert!(rt; bits.as_slice() == [35, 1, 4].as_slice());
    assert!(rt; gate.operations.have_met());
    assert!(rt; gate.marks.have_met());
    Ok(())
}
