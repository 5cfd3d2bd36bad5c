//! The law of counts of uses in which nothing is counted. The function does nothing: what it ensures holds of all counts.

ghost use Rattle.std.specs.Prelude.{◌≡◌, ℕ};
ghost use Rattle.use_analysis.specs.UseNumbers.{UseNumbers, no_numbers};
ghost use Rattle.model_facts.specs.NothingCounted.{NothingCounted};

/// New counts of uses have nothing counted.
pub fn new_counts_count_nothing()
    ensures { (variables : ℕ) (counts : UseNumbers) → counts ≡ no_numbers variables
        → NothingCounted variables counts }
{}
