//! The names of vertices and of variables, as an application has them.

ghost use Rattle.std.specs.Prelude.{◌≡◌, map, IfOk};
ghost use Rattle.model_core.specs.Code.Views.{graph_of};
ghost use Rattle.reducer.specs.Inner.LaterRules.{name_at_place};

use model_core::Model;
use sig_base::{Name, NoMemory};
use std::alloc::Global;

/// Which of a model's declarations a place is one of.
#[derive(Copy, Clone, Drop)]
pub(crate) enum Declared {
    Variables,
    Vertices,
}

/// The names that are declared at these places.
pub(crate) fn names_at(
    alloc: Global,
    model: &Model,
    declared: Declared,
    places: &[usize],
) -> Result<Vec<Name>, NoMemory>
    ensures { IfOk result
        (λ names. names.items ≡ map (name_at_place declared (graph_of model.now)) places.now) }
{
    let mut names = Vec::with_capacity(alloc, places.len())?;
    for place in places {
        names.push(name_at(alloc, model, declared, *place)?)?;
    }
    Ok(names)
}

/// The name that is declared at a place, which is empty where there is none.
pub(crate) fn name_at(
    alloc: Global,
    model: &Model,
    declared: Declared,
    place: usize,
) -> Result<Name, NoMemory>
    ensures { IfOk result (λ name. name ≡ name_at_place declared (graph_of model.now) place) }
{
    let name = match declared {
        Declared::Variables => model.variable_name(place),
        Declared::Vertices => model.vertex_name(place),
    };
    Ok(Name::from_vec(Vec::from_slice(alloc, name)?))
}
