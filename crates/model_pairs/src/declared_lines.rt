//! The lines of what two models declare.

ghost use Rattle.std.specs.Prelude.{◌≡◌, ◌++◌, map, codes, IfOk, OnOk};
ghost use Rattle.std.specs.Fmt.{signed_decimal};
ghost use Rattle.model_core.specs.Text.Canonical.{size_text, clip_text, initial_truth, kind_text, variable_line, variable_name, watched_name, joined, after_commas, watch_line, in_parentheses};
ghost use Rattle.model_core.specs.Code.Views.{graph_of, variable_of, watched_of};
ghost use Rattle.model_pairs.specs.DeclaredApart.{line_or_dash, line_at, watched_line, first_vertex_line};

use model_core::{Kind, Model, Var, Watch};
use sig_base::{NoMemory, Text, put_bytes, put_counted, put_signed, put_texts};
use std::alloc::Global;

/// Adds the size of an array in brackets, and nothing for a scalar.
fn put_size(out: &mut Vec<u8>, size: usize) -> Result<(), NoMemory>
    ensures { OnOk result (out.new.items ≡ out.old.items ++ size_text size) }
{
    if size == 0 {
        return Ok(());
    }
    put_counted(out, b"[", size as u64)?;
    put_bytes(out, b"]")
}

/// The initial value of a truth value.
fn initial_truth(initial: i64) -> &'static [u8]
    ensures { result.now ≡ initial_truth initial }
{
    if initial == 0 { b"false" } else { b"true" }
}

/// The word for a store that takes the nearest bound.
fn clip_text(clip: bool) -> &'static [u8]
    ensures { result.now ≡ clip_text clip }
{
    if clip { b" clip" } else { b"" }
}

/// Adds the bounds of a range.
fn put_bounds(out: &mut Vec<u8>, lo: i64, hi: i64) -> Result<(), NoMemory>
    ensures { OnOk result
        (out.new.items ≡ out.old.items ++ signed_decimal lo ++ codes ".." ++ signed_decimal hi) }
{
    put_signed(out, lo)?;
    put_bytes(out, b"..")?;
    put_signed(out, hi)
}

/// Adds whether stores take the nearest bound, and the initial value.
fn put_initial(out: &mut Vec<u8>, clip: bool, initial: i64) -> Result<(), NoMemory>
    ensures { OnOk result
        (out.new.items ≡ out.old.items ++ clip_text clip ++ codes " = " ++ signed_decimal initial) }
{
    put_texts(out, &[clip_text(clip), b" = "])?;
    put_signed(out, initial)
}

/// Adds the range and the initial value of a number.
fn put_range(out: &mut Vec<u8>, var: &Var) -> Result<(), NoMemory>
    ensures { OnOk result
        (out.new.items
        ≡ out.old.items
        ++ (signed_decimal var.now.lo ++ codes ".." ++ signed_decimal var.now.hi
        ++ clip_text var.now.clip ++ codes " = " ++ signed_decimal var.now.initial)) }
{
    put_bounds(out, var.lo, var.hi)?;
    put_initial(out, var.clip, var.initial)
}

/// Adds what a variable holds, and its initial value.
fn put_kind(out: &mut Vec<u8>, var: &Var) -> Result<(), NoMemory>
    ensures { OnOk result
        (out.new.items ≡ out.old.items ++ kind_text (variable_of var.now) var.now.kind) }
{
    match var.kind {
        Kind::Truth => put_texts(out, &[b"bool = ", initial_truth(var.initial)]),
        Kind::Range => put_range(out, var),
    }
}

/// The line that declares a variable.
fn variable_line(alloc: Global, var: &Var) -> Result<Text, NoMemory>
    ensures { IfOk result (λ line. line ≡ variable_line (variable_of var.now)) }
{
    let mut out = Vec::new(alloc);
    put_texts(&mut out, &[b"var ", var.name.as_slice()])?;
    put_size(&mut out, var.size)?;
    put_bytes(&mut out, b" : ")?;
    put_kind(&mut out, var)?;
    put_bytes(&mut out, b";\n")?;
    Ok(Text::from_vec(out))
}

/// The line of the variable at a place, and no bytes where there is none.
pub(crate) fn line_at(alloc: Global, model: &Model, var: usize) -> Result<Text, NoMemory>
    ensures { IfOk result (λ line. line ≡ line_at (graph_of model.now) var) }
{
    match model.vars.as_slice().get(var) {
        Some(found) => variable_line(alloc, found),
        None => Ok(Text::from_vec(Vec::new(alloc))),
    }
}

/// The line of a variable that is watched.
pub(crate) fn watched_line(alloc: Global, model: &Model, watch: Watch) -> Result<Text, NoMemory>
    ensures { IfOk result (λ line. line ≡ watched_line (graph_of model.now) (watched_of watch)) }
{
    match watch {
        Watch::Variable { var } => line_at(alloc, model, var),
        Watch::Event { vertex: _ } => Ok(Text::from_vec(Vec::new(alloc))),
    }
}

/// Adds the names of more things that are watched, each after a comma.
fn put_more_watched(out: &mut Vec<u8>, model: &Model, watch: &[Watch]) -> Result<(), NoMemory>
    ensures { OnOk result
        (out.new.items
        ≡ out.old.items
        ++ after_commas (map (watched_name (graph_of model.now)) (map watched_of watch.now))) }
{
    for next in watch {
        put_texts(out, &[b", ", model.watched_name(*next)])?;
    }
    Ok(())
}

/// The line of the watch list, and a dash where nothing is watched.
pub(crate) fn watch_line(alloc: Global, model: &Model) -> Result<Text, NoMemory>
    ensures { IfOk result (λ line. line ≡ line_or_dash (watch_line (graph_of model.now))) }
{
    let mut out = Vec::new(alloc);
    let [first, rest @ ..] = model.watch.as_slice() else {
        put_bytes(&mut out, b"-\n")?;
        return Ok(Text::from_vec(out));
    };
    put_texts(&mut out, &[b"watch ", model.watched_name(*first)])?;
    put_more_watched(&mut out, model, rest)?;
    put_bytes(&mut out, b";\n")?;
    Ok(Text::from_vec(out))
}

/// Adds the names of more parameters, each after a comma.
fn put_more_parameters(out: &mut Vec<u8>, model: &Model, params: &[usize]) -> Result<(), NoMemory>
    ensures { OnOk result
        (out.new.items
        ≡ out.old.items ++ after_commas (map (variable_name (graph_of model.now)) params.now)) }
{
    for next in params {
        put_texts(out, &[b", ", model.variable_name(*next)])?;
    }
    Ok(())
}

/// Adds the names of parameters in parentheses, and nothing where there are none.
fn put_parameters(out: &mut Vec<u8>, model: &Model, params: &[usize]) -> Result<(), NoMemory>
    ensures { OnOk result
        (out.new.items
        ≡ out.old.items
        ++ in_parentheses (map (variable_name (graph_of model.now)) params.now)) }
{
    let [first, rest @ ..] = params else {
        return Ok(());
    };
    put_texts(out, &[b"(", model.variable_name(*first)])?;
    put_more_parameters(out, model, rest)?;
    put_bytes(out, b")")
}

/// The first vertex, with the names of its parameters.
pub(crate) fn first_vertex_line(alloc: Global, model: &Model) -> Result<Text, NoMemory>
    ensures { IfOk result (λ line. line ≡ first_vertex_line (graph_of model.now)) }
{
    let mut out = Vec::new(alloc);
    put_texts(&mut out, &[b"vertex ", model.vertex_name(0)])?;
    put_parameters(&mut out, model, model.parameters_at(0))?;
    put_bytes(&mut out, b"\n")?;
    Ok(Text::from_vec(out))
}
