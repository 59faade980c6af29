//! A round: turns, until nobody asks any more.

ghost use Rattle.std.specs.Prelude.{◌≡◌, ◌<◌, ◌≤◌, ℕ, Bool, length, sum_by, true, false, IfOk, IfErr, OnOk};
ghost use Rattle.qm_crew.specs.Turned.{AreTurned, NobodyAsks, IsRound};

use crate::calls::Runs;

/// Answers the members of a crew that have to ask before they can go on.
pub trait Answers<W> {
    type Error;

    /// How much a member has left to do, with what it has to look at.
    ghost left: { W → ℕ };

    /// Whether a member asks.
    ghost asks: { W → Bool };

    /// What it may make of a member, as what it tells is true.
    ghost tells: { Self → W → W → Type 0 };

    /// What answers leave of it.
    ghost leaves: { Self → Self → Type 0 };

    /// What an answer that fails leaves of it, with its error.
    ghost fails: { Self → Self → Self.Error → Type 0 };

    /// Answers a member, if it asks, which then has less left. Whether it did. Of a member whose answer fails it says nothing.
    fn answer(&mut self, worker: &mut W) -> Result<bool, Self::Error>
        ensures told { OnOk result (tells self.old worker.old worker.new) }
        ensures no_more { OnOk result (left worker.new ≤ left worker.old) }
        ensures less { IfOk result (λ did. did ≡ true → left worker.new < left worker.old) }
        ensures quiet { IfOk result (λ did. did ≡ false → asks worker.new ≡ false) }
        ensures leaves { OnOk result (leaves self.old self.new) }
        ensures err { IfErr result (fails self.old self.new) };

    /// No answer leaves it as it is.
    ghost leaves_it: { (a : Self) → leaves a a };

    /// Answers in a row leave what one leaves.
    ghost leaves_on: { (a b c : Self) → leaves a b → leaves b c → leaves a c };

    /// A later answer tells no more than one could have told before.
    ghost tells_on: { (a b : Self) (v w : W) → leaves a b → tells b v w → tells a v w };

    /// A later answer fails as one could have failed before.
    ghost fails_on: { (a b c : Self) (e : Self.Error) → leaves a b → fails b c e → fails a c e };
}

/// Has a crew take turns, and answers those who ask after each, until nobody asks. It returns since an answer leaves less to do to whoever asked, and a turn no more. Each turn is one call of `run`, and an answer of each member after it. Of the crew after an error it says nothing but its length.
pub fn turn_until_quiet<W, T: Runs<W>, A: Answers<W>>(
    run: &mut T,
    answers: &mut A,
    crew: &mut [W],
) -> Result<(), A::Error>
    requires ready { T.ready run.old }
    requires turns { (a b : W) → T.turns a b → A.left b ≤ A.left a }
    ensures ready { T.ready run.new }
    ensures long { length crew.new ≡ length crew.old }
    ensures round { OnOk result (IsRound T.turns (A.tells answers.old) crew.old crew.new) }
    ensures quiet { OnOk result (NobodyAsks A.asks crew.new) }
    ensures leaves { OnOk result (A.leaves answers.old answers.new) }
    ensures err { IfErr result (A.fails answers.old answers.new) }
{
    loop {
        run.run(crew);
        if !answer_all(answers, crew)? {
            return Ok(());
        }
    }
}

// Answers each that asks. Whether anybody did.
fn answer_all<W, A: Answers<W>>(answers: &mut A, crew: &mut [W]) -> Result<bool, A::Error>
    ensures long { length crew.new ≡ length crew.old }
    ensures told { OnOk result (AreTurned (A.tells answers.old) crew.old crew.new) }
    ensures less { IfOk result (λ any. any ≡ true
        → sum_by A.left crew.new < sum_by A.left crew.old) }
    ensures quiet { IfOk result (λ any. any ≡ false → NobodyAsks A.asks crew.new) }
    ensures leaves { OnOk result (A.leaves answers.old answers.new) }
    ensures err { IfErr result (A.fails answers.old answers.new) }
{
    let mut any = false;
    for i in 0..crew.len() {
        if answers.answer(&mut crew[i])? {
            any = true;
        }
    }
    Ok(any)
}
