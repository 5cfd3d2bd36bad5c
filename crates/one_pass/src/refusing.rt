//! Giving up the quick reading of a text if a static rule is broken.

ghost use Rattle.std.specs.Prelude.{◌≡◌, ◌≢◌, None, OnOk, OnErr};

use crate::not_read::NotRead;
use sig_types::FirstFault;

/// Gives up where a fault was found.
pub(crate) fn refuse_fault(fault: &FirstFault) -> Result<(), NotRead>
    ensures none_found { OnOk result (fault.now ≡ None) }
    ensures found { OnErr result (fault.now ≢ None) }
{
    match fault.first_fault() {
        None => Ok(()),
        Some(_) => Err(NotRead::Unsure),
    }
}
