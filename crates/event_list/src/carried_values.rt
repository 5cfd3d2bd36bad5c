//! The values that a pending event carries: copied and compared without taking memory.

ghost use Rattle.std.specs.Prelude.{◌≡◌, []};
ghost use Rattle.model_core.specs.Run.Pending.{same_values};

use sig_base::Carried;

/// Puts the same values once more into an empty list. Most events carry none.
pub fn copy_values(values: &Carried, copy: &mut Carried)
    requires { copy.old.items ≡ [] }
    ensures { copy.new.items ≡ values.now.items }
{
    for value in values.as_slice() {
        copy.push(*value);
    }
}

/// Whether two lists of values are the same.
pub fn same(a: &Carried, b: &Carried) -> bool
    ensures { result ≡ same_values a.now.items b.now.items }
{
    a.as_slice() == b.as_slice()
}
