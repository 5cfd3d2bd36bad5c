//! The description of a whole model.

ghost use Rattle.std.specs.Prelude.{◌≡◌, ◌++◌, OnOk, IfOk};
ghost use Rattle.model_core.specs.Text.Canonical.{vertex_name};
ghost use Rattle.model_core.specs.Code.Views.{graph_of};
ghost use Rattle.describe.specs.Description.{model_sentence, first_event_sentence, description};

use crate::declarations::{put_tables, put_variables, put_watch};
use crate::vertices::put_vertices;
use model_core::Model;
use sig_base::{NoMemory, Text, put_texts};
use std::alloc::Global;

/// Adds the sentence of the model's name.
fn put_model_name(out: &mut Vec<u8>, model: &Model) -> Result<(), NoMemory>
    ensures { OnOk result (out.new.items ≡ out.old.items ++ model_sentence model.now.name) }
{
    put_texts(out, &[b"This is the model ", model.name.as_slice(), b".\n"])
}

/// Adds the sentence of the first event.
fn put_first_event(out: &mut Vec<u8>, model: &Model) -> Result<(), NoMemory>
    ensures { OnOk result
        (out.new.items
        ≡ out.old.items ++ first_event_sentence (vertex_name (graph_of model.now) 0)) }
{
    put_texts(out, &[b"The first event is ", model.vertex_name(0), b".\n"])
}

/// Adds the sentences of a model.
fn put_description(alloc: Global, out: &mut Vec<u8>, model: &Model) -> Result<(), NoMemory>
    ensures { OnOk result (out.new.items ≡ out.old.items ++ description (graph_of model.now)) }
{
    put_model_name(out, model)?;
    put_variables(out, model.vars.as_slice())?;
    put_tables(out, model.tables.as_slice())?;
    put_watch(out, model, model.watch.as_slice())?;
    put_first_event(out, model)?;
    put_vertices(alloc, out, model, model.vertices.as_slice())
}

/// A model in English, one sentence a line: its name, what each variable holds, what each table gives, what is watched,
/// which event is the first, and of each event the values that it takes, what it changes and what follows it.
///
/// A place that no variable, table or vertex has reads as nothing.
pub fn describe(alloc: Global, model: &Model) -> Result<Text, NoMemory>
    ensures { IfOk result (λ text. text ≡ description (graph_of model.now)) }
{
    let mut out = Vec::new(alloc);
    put_description(alloc, &mut out, model)?;
    Ok(Text::from_vec(out))
}
