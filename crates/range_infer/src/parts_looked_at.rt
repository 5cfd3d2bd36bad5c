//! Which parts of a model are looked at: all of them, or those that read a variable whose range moved.

ghost use Rattle.std.specs.Prelude.{◌≡◌};
ghost use Rattle.std.specs.List.{list_any};
ghost use Rattle.range_infer.specs.Inner.Moved.{is_moved};
ghost use Rattle.range_infer.specs.Inner.LookedAt.{looks_at, looks_at_value};

use crate::moved_ranges::is_moved;
use crate::part_reads::ValueReads;

/// All parts are looked at, or those that read one of the variables that are marked as moved.
#[derive(Clone, Copy)]
pub(crate) struct Look<'m> {
    pub(crate) all: bool,
    pub(crate) moved: &'m [bool],
}

/// Whether the range of one of these variables moved.
fn one_moved(moved: &[bool], vars: &[usize]) -> bool
    ensures { result ≡ list_any (is_moved moved.now) vars.now }
{
    for var in vars {
        if is_moved(moved, *var) {
            return true;
        }
    }
    false
}

/// Whether a part is looked at that reads these variables.
pub(crate) fn looks_at(look: &Look, vars: &[usize]) -> bool
    ensures { result ≡ looks_at look.now.all look.now.moved.now vars.now }
{
    look.all || one_moved(look.moved, vars)
}

/// Whether one of the values is looked at of which this is read.
pub(crate) fn looks_at_one(look: &Look, reads: &[ValueReads]) -> bool
    ensures { result ≡ list_any (looks_at_value look.now.all look.now.moved.now) reads.now }
{
    for value in reads {
        if looks_at(look, value.vars.as_slice()) {
            return true;
        }
    }
    false
}
