//! The rounds that lead to a normal form: what one of them does, and where they end.

ghost use Rattle.std.specs.Prelude.{◌≡◌};
ghost use Rattle.model_core.specs.Ranges.Narrowed.{IsNarrowed};
ghost use Rattle.model_core.specs.Rules.Fuse.{Fused};
ghost use Rattle.model_core.specs.Rules.Reduction.{Strategy};
ghost use Rattle.normal_form.specs.declared.limits.TheConstants.{ROUNDS_MAX};
ghost use Rattle.normal_form.specs.Normal.{Round, NormalWithin, Normal};
ghost use Rattle.worked_rules.specs.NormalModels.{with_spare_parts, narrower, rules_of_the_round, without_spare_parts, plain_form};

use normal_form::rounds_keep_the_meaning;

/// A round narrows, then reduces, and then fuses: each part finds what the one before it brought to light.
pub fn a_round_has_three_parts()
    ensures narrows { IsNarrowed with_spare_parts narrower }
    ensures reduces { Strategy narrower rules_of_the_round without_spare_parts }
    ensures fuses { Fused without_spare_parts plain_form }
    ensures whole { Round with_spare_parts plain_form }
    ensures no_more { Round plain_form plain_form }
{}

/// Rounds go on while one changes something, as long as one is left.
// none is left; one is left; one leaves the model as it is, with one left and with all of them; the
// first model isn't the end where a round would change it, nor is the second one before a round.
pub fn rounds_end_where_one_changes_nothing()
    ensures none_left { NormalWithin 0 with_spare_parts with_spare_parts }
    ensures one_left { NormalWithin 1 with_spare_parts plain_form }
    ensures as_it_is { NormalWithin 1 plain_form plain_form }
    ensures whole { Normal with_spare_parts plain_form }
    ensures not_at_once { NormalWithin 1 with_spare_parts with_spare_parts → ⊥ }
    ensures not_without_a_round { NormalWithin 0 with_spare_parts plain_form → ⊥ }
    ensures most { ROUNDS_MAX ≡ 8 }
{
    a_round_has_three_parts();
    rounds_keep_the_meaning();
}
