//! Laws of runs that are stopped and go on. The functions do nothing: what they ensure holds of all runs.

ghost use Rattle.std.specs.Prelude.{◌≡◌, ℕ, ◌^◌, ◌<◌, ◌≤◌, ℤ, IsTrue, List};
ghost use Rattle.model_core.specs.EventGraph.{EventGraph};
ghost use Rattle.model_core.specs.Run.History.{Moment, allowed, look};
ghost use Rattle.model_core.specs.Run.Machine.{Going};
ghost use Rattle.model_core.specs.Text.Spellable.{IsSpellable};
ghost use Rattle.model_core.specs.Static.OwnRules.{KeepsStaticRules};
ghost use Rattle.model_core.specs.Saved.GoingOn.{GoesOn};
ghost use Rattle.model_core.specs.Saved.Resuming.{Resumes};

use order_laws::due_order_decides;
use run_laws::runs_go_on;

/// A run that is going on after n steps can be stopped there: from the moment reached it goes on as the whole run
/// does, up to any stop time that isn't before its clock.
pub fn stopped_runs_go_on()
    ensures { (g : EventGraph) (seed : ℕ) (starts : List ℤ) (until n : ℕ)
        → (look g seed starts until n).standing ≡ Going
        → (m : Moment) × GoesOn g seed starts until n m }
{
    runs_go_on();
}

/// So can a saved run, for a valid model and within the limits of a run: what is saved is good, and the history from
/// there on, after the one so far, is that of the whole run.
pub fn saved_runs_resume()
    ensures { (g : EventGraph) (seed : ℕ) (starts : List ℤ) (until n : ℕ) → KeepsStaticRules g
        → IsSpellable g
        → seed < 2 ^ 64 → IsTrue (allowed g starts) → until ≤ 2 ^ 48 → n ≤ 2 ^ 40
        → (look g seed starts until n).standing ≡ Going
        → (m : Moment) × GoesOn g seed starts until n m × Resumes g seed starts until n m }
{
    due_order_decides();
    stopped_runs_go_on();
}
