//! What has a crew take its turn, or mark: calls that are handed in, so that whoever has a crew knows no threads.

ghost use Rattle.std.specs.Prelude.{◌≡◌, length, All};
ghost use Rattle.qm_crew.specs.Turned.{AreTurned};
ghost use Rattle.qm_crew.specs.Crews.{IsReady, AreMarked};

use crate::board::Board;
use crate::crew::Marker;
use crate::turns::Turning;

/// What has a crew take its turn. It asks nothing of the crew's type, so that a method of a trait's impl can take one.
pub trait Runs<W> {
    /// It can be called.
    ghost ready: { Self → Type 0 };

    /// What a turn makes of a member.
    ghost turns: { W → W → Type 0 };

    fn run(&mut self, crew: &mut [W])
        requires { ready self.old }
        ensures turned { AreTurned turns crew.old crew.new }
        ensures ready { ready self.new };
}

/// What has a crew mark its places.
pub trait Marks {
    /// It can be called, and has the crew mark.
    ghost ready: { Self → Type 0 };

    fn mark(&mut self, board: &Board, crew: &mut [Marker])
        requires ready { ready self.old }
        requires crew { All (IsReady board.now.table_id) crew.old }
        ensures marked { AreMarked board.now.table_id crew.old crew.new }
        ensures ready { ready self.new };
}

/// Does either by a call.
#[derive(Drop)]
pub struct ByCall<C> {
    pub call: C,
}

impl<W: Turning, C: Fn(&mut [W])> Runs<W> for ByCall<C> {
    ghost use Rattle.qm_crew.specs.Turned.{AreTurned, Turns};

    ghost ready = { λ r. ((x : _) → C.pre r.call x)
        × ((x y : _) → C.post r.call x tt y → AreTurned (Turns W.left W.may_turn) x.now y.now) };

    ghost turns = { Turns W.left W.may_turn };

    fn run(&mut self, crew: &mut [W]) {
        (self.call)(crew);
    }
}

impl<C: Fn(&Board, &mut [Marker])> Marks for ByCall<C> {
    ghost use Rattle.std.specs.Prelude.{All};
    ghost use Rattle.qm_crew.specs.Crews.{IsReady, AreMarked};

    ghost ready = { λ r. ((b x : _) → All (IsReady b.now.table_id) x.now → C.pre r.call b x)
        × ((b x y : _) → All (IsReady b.now.table_id) x.now → C.post r.call b x tt y
        → AreMarked b.now.table_id x.now y.now) };

    fn mark(&mut self, board: &Board, crew: &mut [Marker]) {
        (self.call)(board, crew);
    }
}
