//! The normal form of a model, by rounds.

ghost use Rattle.std.specs.Prelude.{IfOk};
ghost use Rattle.model_core.specs.Code.Views.{graph_of};
ghost use Rattle.model_core.specs.Static.Reading.{IsValid};
ghost use Rattle.normal_form.specs.Normal.{Round, Normal};

use crate::law::rounds_keep_the_meaning;
use crate::limits::ROUNDS_MAX;
use model_core::{Model, copy_model, same_model};
use range_infer::{narrow_to_needed, narrowed_models_mean_the_same};
use reducer::{Reduced, reduce};
use sig_base::NoMemory;
use std::alloc::Global;
use twin_rules::fuse_all;

/// The model after one round.
fn after_round(alloc: Global, mut model: Model) -> Result<Model, NoMemory>
    requires { IsValid (graph_of model) }
    ensures { IfOk result (λ next. Round (graph_of model) (graph_of next)) }
{
    narrowed_models_mean_the_same();
    narrow_to_needed(alloc, &mut model)?;
    let Reduced {
        model: reduced,
        applications: _,
    } = reduce(alloc, model)?;
    Ok(fuse_all(reduced))
}

/// The normal form of a valid model: the first model that a round leaves as it is, or the one after `ROUNDS_MAX` rounds.
pub fn normal(alloc: Global, model: Model) -> Result<Model, NoMemory>
    requires { IsValid (graph_of model) }
    ensures { IfOk result (λ form. Normal (graph_of model) (graph_of form)) }
{
    rounds_keep_the_meaning();
    let mut form = model;
    for _ in 0..ROUNDS_MAX {
        let before = copy_model(alloc, &form)?;
        form = after_round(alloc, form)?;
        if same_model(&before, &form) {
            break;
        }
    }
    Ok(form)
}
