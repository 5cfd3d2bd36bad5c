//! Lists of variables, each with a second list beside it: values beside parameters, and right sides beside targets.

ghost use Rattle.std.specs.Prelude.{◌≡◌, ℕ, List as Sequence, map, slice_get};
ghost use Rattle.model_core.specs.EventGraph.{Location};
ghost use Rattle.model_core.specs.Code.Views.{location_of};
ghost use Rattle.var_slicing.specs.Inner.Beside.{keeps_beside};

use marked_walks::Staying;
use model_core::Target;
use sig_base::List;

/// A list of things that each have a variable.
pub(crate) trait HasVars {
    // The variables, in order.
    ghost vars: { Self → Sequence ℕ };

    /// The variable of the thing at a place, if there is one.
    fn var_at(&self, place: usize) -> Option<usize>
        ensures { result ≡ slice_get (vars self.now) place };
}

// Parameters are variables.
impl HasVars for List<usize> {
    ghost vars = { λ l. l };

    fn var_at(&self, place: usize) -> Option<usize> {
        let var = self.as_slice().get(place)?;
        Some(*var)
    }
}

// Targets are variables or cells of them.
impl HasVars for List<Target> {
    ghost vars = { λ ts. map (λ (l : Location). l.variable) (map location_of ts) };

    fn var_at(&self, place: usize) -> Option<usize> {
        let target = self.as_slice().get(place)?;
        Some(target.var)
    }
}

/// Whether the item at a place beside these stays: where the variable there stays, or there is none.
pub(crate) fn stays_beside<V: HasVars>(staying: &Staying, beside: &V, place: usize) -> bool
    ensures { result ≡ keeps_beside staying.now (V.vars beside.now) place }
{
    match beside.var_at(place) {
        Some(var) => staying.keeps(var),
        None => true,
    }
}
