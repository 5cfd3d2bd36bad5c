//! A model that a command made, whose text is all that is still needed.

ghost use Rattle.std.specs.Prelude.{◌≡◌, IfOk};
ghost use Rattle.model_core.specs.Text.Canonical.{canonical};
ghost use Rattle.model_core.specs.Code.Views.{graph_of};

use model_core::Model;
use model_print::print;
use sig_base::{NoMemory, Text};
use std::alloc::Global;
use std::mem::forget;

/// The canonical text of the model. The program ends after it, so the model isn't taken apart.
pub(crate) fn last_text(alloc: Global, model: Model) -> Result<Text, NoMemory>
    ensures { IfOk result (λ out. out ≡ canonical (graph_of model)) }
{
    let text = print(alloc, &model);
    forget(model);
    text
}
