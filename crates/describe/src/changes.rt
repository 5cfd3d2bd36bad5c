//! The sentences of the changes that an event makes.

ghost use Rattle.std.specs.Prelude.{◌≡◌, ◌++◌, [], map, zip, slice_get, codes, OnOk};
ghost use Rattle.std.specs.List.{flat_map};
ghost use Rattle.std.specs.Option.{option_map_or};
ghost use Rattle.model_core.specs.EventGraph.{Expression};
ghost use Rattle.model_core.specs.Code.Views.{graph_of, expression_of, location_of, change_of};
ghost use Rattle.describe.specs.Description.{becomes_phrase, after_ands, joined_by_and, change_phrase, change_sentence};

use crate::phrases::{put_drawn, put_expression, put_target};
use model_core::{Change, Expr, Model, Target};
use sig_base::{NoMemory, put_bytes, put_texts};
use std::alloc::Global;

/// Adds what a target becomes.
fn put_becoming(
    alloc: Global,
    out: &mut Vec<u8>,
    model: &Model,
    target: &Target,
    value: &Expr,
) -> Result<(), NoMemory>
    ensures { OnOk result
        (out.new.items
        ≡ out.old.items
        ++ becomes_phrase (graph_of model.now) (location_of target.now, expression_of value.now)) }
{
    put_target(alloc, out, model, target)?;
    put_bytes(out, b" becomes ")?;
    put_expression(alloc, out, model, value)
}

/// Adds what a target becomes after `and`, where there is a value at this place.
fn put_becoming_at(
    alloc: Global,
    out: &mut Vec<u8>,
    model: &Model,
    target: &Target,
    values: &[Expr],
    place: usize,
) -> Result<(), NoMemory>
    ensures { OnOk result
        (out.new.items
        ≡ out.old.items
        ++ option_map_or
        (λ (e : Expression).
        codes " and " ++ becomes_phrase (graph_of model.now) (location_of target.now, e))
        (slice_get (map expression_of values.now) place) []) }
{
    match values.get(place) {
        Some(value) => {
            put_bytes(out, b" and ")?;
            put_becoming(alloc, out, model, target, value)
        }
        None => Ok(()),
    }
}

/// Adds what targets become, each after `and`.
fn put_later_becoming(
    alloc: Global,
    out: &mut Vec<u8>,
    model: &Model,
    targets: &[Target],
    values: &[Expr],
) -> Result<(), NoMemory>
    ensures { OnOk result
        (out.new.items
        ≡ out.old.items
        ++ after_ands
        (map (becomes_phrase (graph_of model.now))
        (zip (map location_of targets.now) (map expression_of values.now)))) }
{
    for (place, target) in targets.iter().enumerate() {
        put_becoming_at(alloc, out, model, target, values, place)?;
    }
    Ok(())
}

/// Adds what targets become, with `and` between two.
fn put_all_becoming(
    alloc: Global,
    out: &mut Vec<u8>,
    model: &Model,
    targets: &[Target],
    values: &[Expr],
) -> Result<(), NoMemory>
    ensures { OnOk result
        (out.new.items
        ≡ out.old.items
        ++ joined_by_and
        (map (becomes_phrase (graph_of model.now))
        (zip (map location_of targets.now) (map expression_of values.now)))) }
{
    let [target, later_targets @ ..] = targets else {
        return Ok(());
    };
    let [value, later_values @ ..] = values else {
        return Ok(());
    };
    put_becoming(alloc, out, model, target, value)?;
    put_later_becoming(alloc, out, model, later_targets, later_values)
}

/// Adds what a change does.
fn put_effect(
    alloc: Global,
    out: &mut Vec<u8>,
    model: &Model,
    change: &Change,
) -> Result<(), NoMemory>
    ensures { OnOk result
        (out.new.items
        ≡ out.old.items ++ change_phrase (graph_of model.now) (change_of change.now)) }
{
    match change {
        Change::Set { targets, values } => {
            put_all_becoming(alloc, out, model, targets.as_slice(), values.as_slice())
        }
        Change::Draw {
            target,
            stream,
            choice,
        } => {
            put_target(alloc, out, model, target)?;
            put_bytes(out, b" is ")?;
            put_drawn(out, model, *stream, *choice)
        }
    }
}

/// Adds the sentence of a change by the event of this name.
fn put_change(
    alloc: Global,
    out: &mut Vec<u8>,
    model: &Model,
    name: &[u8],
    change: &Change,
) -> Result<(), NoMemory>
    ensures { OnOk result
        (out.new.items
        ≡ out.old.items ++ change_sentence (graph_of model.now) name.now (change_of change.now)) }
{
    put_texts(out, &[b"When ", name, b" occurs, "])?;
    put_effect(alloc, out, model, change)?;
    put_bytes(out, b".\n")
}

/// Adds the sentences of changes by the event of this name.
pub(crate) fn put_changes(
    alloc: Global,
    out: &mut Vec<u8>,
    model: &Model,
    name: &[u8],
    changes: &[Change],
) -> Result<(), NoMemory>
    ensures { OnOk result
        (out.new.items
        ≡ out.old.items
        ++ flat_map (change_sentence (graph_of model.now) name.now) (map change_of changes.now)) }
{
    for change in changes {
        put_change(alloc, out, model, name, change)?;
    }
    Ok(())
}
