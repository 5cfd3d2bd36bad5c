//! The declarations of a made model, before its vertices.

ghost use Rattle.std.specs.Prelude.{◌≡◌, [], ◌∷◌, ◌++◌, map, IfOk};
ghost use Rattle.std.specs.List.{range_with_len};
ghost use Rattle.model_core.specs.EventGraph.{WatchedVariable};
ghost use Rattle.model_core.specs.Code.Views.{variable_of, watched_of};
ghost use Rattle.model_gen.specs.Generated.{counter, gap};

use crate::made_names::{copied_name, numbered_name};
use model_core::{Kind, Var, Watch};
use sig_base::{List, NoMemory};
use std::alloc::Global;

/// A variable that counts up to 99 and stays there.
fn counter(alloc: Global, number: usize) -> Result<Var, NoMemory>
    ensures { IfOk result (λ var. variable_of var ≡ counter number) }
{
    Ok(Var {
        name: numbered_name(alloc, b"C", number)?,
        size: 0,
        kind: Kind::Range,
        lo: 0,
        hi: 99,
        clip: true,
        initial: 0,
    })
}

/// The variable that takes the delays that are drawn.
fn gap(alloc: Global) -> Result<Var, NoMemory>
    ensures { IfOk result (λ var. variable_of var ≡ gap) }
{
    Ok(Var {
        name: copied_name(alloc, b"GAP")?,
        size: 0,
        kind: Kind::Range,
        lo: 1,
        hi: 6,
        clip: false,
        initial: 1,
    })
}

/// The variables.
pub(crate) fn variables(alloc: Global) -> Result<List<Var>, NoMemory>
    ensures { IfOk result
        (λ vars. map variable_of vars ≡ map counter (range_with_len 0 8) ++ gap ∷ []) }
{
    let mut vars = Vec::with_capacity(alloc, 9)?;
    for number in 0..8 {
        vars.push(counter(alloc, number)?)?;
    }
    vars.push(gap(alloc)?)?;
    Ok(List::from_vec(vars))
}

/// The watch list: the first two counters.
pub(crate) fn watched_counters(alloc: Global) -> Result<List<Watch>, NoMemory>
    ensures { IfOk result
        (λ watch. map watched_of watch ≡ WatchedVariable 0 ∷ WatchedVariable 1 ∷ []) }
{
    let mut watch = List::of_one(alloc, Watch::Variable { var: 0 })?;
    watch.push(Watch::Variable { var: 1 })?;
    Ok(watch)
}
