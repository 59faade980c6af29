//! The shared words, the rule over them and over all views, and the steps.

ghost use Rattle.std.specs.Prelude.{◌≡◌, ◌/◌, ◌<◌, false};
ghost use Rattle.qm_crew.specs.Views.{marking};

use atomic_table::{Join, Play, Seat, Shared, Split, Table, TableRule};
use std::alloc::Global;
use std::collections::LinkedList;

/// What a seat knows. No value of it is made.
pub struct View {
    /// It splits seats off, and takes them in.
    pub lead: bool,
    /// It was taken in.
    pub spent: bool,
    /// The places that it has marked.
    pub marks: LinkedList<u64>,
    /// How many seats are split off and not taken in.
    pub out: u64,
}

/// The rule: each bit tells whether some view has marked its place, and one view leads.
pub struct Marking;

impl TableRule<(), View, ()> for Marking {
    ghost use Rattle.std.specs.Prelude.{[]};
    ghost use Rattle.qm_crew.specs.Views.{leader, IsMarking};

    ghost holds = { λ _. IsMarking };

    ghost first = { λ _. leader [] 0 };
}

/// A step that marks one place.
pub struct OneMark;

impl Play<(), View> for OneMark {
    ghost use Rattle.qm_crew.specs.Views.{Marked};

    ghost then = { Marked };
}

/// How a worker's seat is split off the leading one, and taken in again.
pub struct Cut;

impl Split<View> for Cut {
    ghost use Rattle.std.specs.Prelude.{[]};
    ghost use Rattle.qm_crew.specs.Views.{with_one_out, worker};

    ghost left = { with_one_out };

    ghost right = { λ _. worker [] };
}

impl Join<View> for Cut {
    ghost use Rattle.qm_crew.specs.Views.{taken_in, nobody};

    ghost both = { taken_in };

    ghost spent = { nobody };
}

/// By which a worker marks.
pub type MarkSeat = Seat<(), View>;

/// What workers mark on.
pub type Board = Shared<(), View, (), Marking>;

/// What owns a board.
pub type BoardTable = Table<(), View, (), Marking, Global>;

/// Marks a place, by one step on its word, which leaves the word's other bits as they are.
pub fn mark(board: &Board, seat: &mut MarkSeat, place: u64)
    requires table { seat.old.table_id ≡ board.now.table_id }
    requires within { place / 64 < board.now.table_id.words }
    requires fresh { seat.old.me.0.spent ≡ false }
    ensures same { (seat.new.table_id ≡ seat.old.table_id) × (seat.new.id ≡ seat.old.id) }
    ensures marked { seat.new.me ≡ (marking seat.old.me.0 place, seat.old.me.1) }
{
    let word = (place / 64) as usize;
    let bit = 1u64 << (place % 64);
    board.fetch_or::<OneMark>(seat, word, bit);
}
