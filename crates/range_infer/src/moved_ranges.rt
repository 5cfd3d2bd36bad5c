//! Which ranges a round moved.

ghost use Rattle.std.specs.Prelude.{◌≡◌, ◌≢◌, ◌↔◌, length, IsTrue, IfOk};
ghost use Rattle.range_infer.specs.Inner.Moved.{is_moved, MarksMoved};

use model_core::VarRange;
use sig_base::NoMemory;
use std::alloc::Global;

fn is_other(a: VarRange, b: VarRange) -> bool
    ensures { IsTrue result ↔ (a ≢ b) }
{
    a.lo != b.lo || a.hi != b.hi
}

/// Whether no range moved.
pub(crate) fn same_ranges(a: &[VarRange], b: &[VarRange]) -> bool
    requires { length a.now ≡ length b.now }
    ensures { IsTrue result ↔ (a.now ≡ b.now) }
{
    for place in 0..a.len() {
        if is_other(a[place], b[place]) {
            return false;
        }
    }
    true
}

/// A mark for each range, set where it moved.
pub(crate) fn moved_ranges(
    alloc: Global,
    old: &[VarRange],
    new: &[VarRange],
) -> Result<Vec<bool>, NoMemory>
    requires { length new.now ≡ length old.now }
    ensures many { IfOk result (λ moved. length moved.items ≡ length new.now) }
    ensures marks { IfOk result (λ moved. MarksMoved old.now new.now moved.items) }
{
    let mut moved = Vec::new(alloc);
    for place in 0..old.len() {
        moved.push(is_other(old[place], new[place]))?;
    }
    Ok(moved)
}

/// Whether the range of the variable at this place moved.
pub(crate) fn is_moved(moved: &[bool], var: usize) -> bool
    ensures { result ≡ is_moved moved.now var }
{
    match moved.get(var) {
        Some(moved) => *moved,
        None => false,
    }
}
