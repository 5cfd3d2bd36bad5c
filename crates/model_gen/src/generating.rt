//! The model that a number makes.

ghost use Rattle.std.specs.Prelude.{◌≡◌, ◌≤◌, IfOk};
ghost use Rattle.model_core.specs.Code.Views.{graph_of};
ghost use Rattle.model_core.specs.Static.Reading.{IsValid};
ghost use Rattle.model_gen.specs.Generated.{generated};

use crate::declared_parts::{variables, watched_counters};
use crate::made_names::copied_name;
use crate::validity::generated_models_are_valid;
use crate::vertices_by_words::vertices_by_words;
use model_core::Model;
use sig_base::{List, NoMemory};
use std::alloc::Global;

/// The model of so many vertices that a seed makes: three words of stream 54 make each vertex. The same seed makes the
/// same model.
pub fn generate(alloc: Global, seed: u64, vertices: usize) -> Result<Model, NoMemory>
    requires some { 1 ≤ vertices }
    requires few_vertices { vertices ≤ 500 }
    ensures made { IfOk result (λ model. graph_of model ≡ generated seed vertices) }
    ensures valid { IfOk result (λ model. IsValid (graph_of model)) }
{
    generated_models_are_valid();
    Ok(Model {
        name: copied_name(alloc, b"TRIAL")?,
        vars: variables(alloc)?,
        tables: List::new(alloc),
        watch: watched_counters(alloc)?,
        vertices: vertices_by_words(alloc, seed, vertices)?,
    })
}
