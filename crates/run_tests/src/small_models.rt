//! Models that small texts read as, and why a run of one can't be tried.

ghost use Rattle.std.specs.Prelude.{IfOk};
ghost use Rattle.model_core.specs.Text.ModelText.{SpellsText};
ghost use Rattle.model_core.specs.Text.Spellable.{IsSpellable};
ghost use Rattle.model_core.specs.Static.OwnRules.{KeepsStaticRules};
ghost use Rattle.model_core.specs.Code.Views.{graph_of};
ghost use Rattle.model_core.specs.Code.WrittenViews.{written_model};

use model_core::{Model, RawModel};
use model_lex::{LexError, ParseError, tokens};
use model_read::parse;
use round_trip::spelled_models_are_spellable;
use run_control::BeginError;
use sig_base::NoMemory;
use sig_types::{StaticError, check};
use static_laws::accepted_models_keep_their_rules;
use std::alloc::Global;

/// Why a run can't be tried.
#[derive(Clone, Copy, Debug)]
pub(crate) enum Refused {
    Lexing(LexError),
    Parsing(ParseError),
    Checking(StaticError),
    Beginning(BeginError),
    NoMemory,
    /// The run is over where it is to go on.
    Over,
}

impl From<LexError> for Refused {
    fn from(error: LexError) -> Refused {
        Refused::Lexing(error)
    }
}

impl From<ParseError> for Refused {
    fn from(error: ParseError) -> Refused {
        Refused::Parsing(error)
    }
}

impl From<StaticError> for Refused {
    fn from(error: StaticError) -> Refused {
        Refused::Checking(error)
    }
}

impl From<BeginError> for Refused {
    fn from(error: BeginError) -> Refused {
        Refused::Beginning(error)
    }
}

impl From<NoMemory> for Refused {
    fn from(_error: NoMemory) -> Refused {
        Refused::NoMemory
    }
}

/// The model that a text spells, as it is written.
fn spelled(alloc: Global, text: &[u8]) -> Result<RawModel, Refused>
    ensures { IfOk result (λ raw. SpellsText text.now (written_model raw)) }
{
    let tokens = tokens(alloc, text)?;
    Ok(parse(alloc, &tokens)?)
}

/// The model that a text reads as.
pub(crate) fn model_of(alloc: Global, text: &[u8]) -> Result<Model, Refused>
    ensures kept { IfOk result (λ model. KeepsStaticRules (graph_of model)) }
    ensures spellable { IfOk result (λ model. IsSpellable (graph_of model)) }
{
    let raw = spelled(alloc, text)?;
    let model = check(alloc, raw)?;
    accepted_models_keep_their_rules();
    spelled_models_are_spellable();
    Ok(model)
}

pub(crate) const CLOCK: &[u8] = b"model CLOCK;
var N : 0..3 clip = 0;
watch N;
vertex RUN {
  set N := N + 1;
  schedule RUN after 5;
}
end
";

pub(crate) const CUT: &[u8] = b"model CUT;
var X : 0..9 = 0;
watch X, B;
vertex RUN {
  schedule B(3) after 5;
  schedule B(4) after 5;
  schedule B(3) after 6;
  cancel B(3);
}
vertex B(X) { }
end
";

pub(crate) const DICE: &[u8] = b"version 2;
model DICE;
var N : 0..9 = 0;
watch N;
vertex RUN {
  set N := N + 1;
  schedule RUN after draw from 54 in 1..6;
}
end
";
