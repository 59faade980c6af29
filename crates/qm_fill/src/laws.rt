//! What holds of fills in parts, each as the contract of a function that does nothing.

ghost use Rattle.std.specs.Prelude.{◌≡◌, ◌+◌, ◌*◌, ◌/◌, ◌++◌, ℕ, List, length};
ghost use Rattle.qm_model.specs.Schemes.{Scheme};
ghost use Rattle.qm_model.specs.Walk.{Rules};
ghost use Rattle.qm_machine.specs.Lines.{Line};
ghost use Rattle.qm_machine.specs.Machine.{State, answers, state_after};
ghost use Rattle.qm_fill.specs.Commands.{round, rounds, commands};
ghost use Rattle.qm_fill.specs.Summary.{Exchange, exchanges, counts_of, both};

/// A run of two lists of commands, one behind the other, is a run of the first, and then one of the second from where the first
/// leaves the machine.
pub fn a_run_is_the_runs_of_its_parts<P>()
    ensures state { (m : Scheme) → (rules : Rules P) → (s : State) → (a b : List (Line P))
        → state_after m rules s (a ++ b) ≡ state_after m rules (state_after m rules s a) b }
    ensures replies { (m : Scheme) → (rules : Rules P) → (s : State) → (a b : List (Line P))
        → answers m rules s (a ++ b)
        ≡ answers m rules s a ++ answers m rules (state_after m rules s a) b }
    ensures beside { (m : Scheme) → (rules : Rules P) → (s : State) → (a b : List (Line P))
        → exchanges m rules s (a ++ b)
        ≡ exchanges m rules s a ++ exchanges m rules (state_after m rules s a) b }
{}

/// Counts of exchanges are those of the first ones, with those of the others.
pub fn counts_of_parts_add_up<P>()
    ensures { (a b : List (Exchange P)) → counts_of (a ++ b) ≡ both (counts_of a) (counts_of b) }
{}

/// One round more stands behind the others.
pub fn rounds_follow_one_another()
    ensures { (seed n : ℕ) → rounds seed (n + 1) ≡ rounds seed n ++ round seed (n + 1) }
{}

/// How many commands a fill has.
pub fn a_fill_has_so_many_commands()
    ensures { (seed n : ℕ) → length (commands seed n) ≡ 11 * n + n / 16 + 7 }
{}
