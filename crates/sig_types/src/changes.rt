//! Changes of the state: their targets, their values, and what a draw takes its value from.

ghost use Rattle.std.specs.Prelude.{◌≡◌, [], ◌∷◌, IfOk, Some, None, map};
ghost use Rattle.std.specs.List.{flat_map};
ghost use Rattle.std.specs.Option.{option_map};
ghost use Rattle.model_core.specs.declared.model.Kind.TheVariants as kinds;
ghost use Rattle.model_core.specs.Code.Views.{expression_of, location_of, choice_of, change_of};
ghost use Rattle.model_core.specs.Code.WrittenViews.{written_expression, written_number, written_target, written_choice, written_change};
ghost use Rattle.model_core.specs.Text.Written as written;
ghost use Rattle.model_core.specs.Text.Numbering as numbering;
ghost use Rattle.model_core.specs.Text.Numbering.{each_numbered, written_or, natural};
ghost use Rattle.model_core.specs.Static.Meanings.{meaning_of};
ghost use Rattle.model_core.specs.Static.PartFaults.{if_written, operand_faults, values_faults, target_kind, target_faults, choice_faults, source_faults, change_faults};
ghost use Rattle.static_laws.specs.Checked.{Checked, NumberedAs, CheckedPart};
ghost use Rattle.static_laws.specs.Wanted.{wanted};
ghost use Rattle.sig_types.specs.Inner.Stored.{stored_faults};

use crate::expressions::operand;
use crate::first_fault::FirstFault;
use crate::kinds::{Typed, kinds_differ};
use crate::names::Names;
use crate::numbers::{bounded, literal, report_empty_range, report_wide_range};
use crate::part_places::report_too_many;
use crate::uses::{table, variable};
use model_core::{
    Change, Choice, Expr, Kind, RawChange, RawChoice, RawExpr, RawNumber, RawTarget, StaticKind,
    Target,
};
use sig_base::{List, NoMemory, TARGETS_MAX};
use std::alloc::Global;

/// The index of a cell.
fn index(
    alloc: Global,
    names: &Names,
    raw: &Option<RawExpr>,
    fault: &mut FirstFault,
) -> Result<Option<Expr>, NoMemory>
    ensures { IfOk result
        (λ i. CheckedPart (meaning_of names.now) fault.old fault.new
        (if_written (operand_faults (meaning_of names.now) (Some kinds.Range))
        (option_map written_expression raw.now))
        (λ d. written_or (λ e. option_map (λ x. Some x) (numbering.expression d e)) None
        (option_map written_expression raw.now)) (option_map expression_of i)) }
{
    let Some(raw) = raw else {
        return Ok(None);
    };
    let index = operand(alloc, names, Some(Kind::Range), raw, fault)?;
    Ok(Some(index.part))
}

/// A variable or a cell that takes a value.
fn target(
    alloc: Global,
    names: &Names,
    raw: &RawTarget,
    fault: &mut FirstFault,
) -> Result<Typed<Target>, NoMemory>
    ensures checked { IfOk result
        (λ t. CheckedPart (meaning_of names.now) fault.old fault.new
        (target_faults (meaning_of names.now) (written_target raw.now))
        (λ d. numbering.location d (written_target raw.now)) (location_of t.part)) }
    ensures kind { IfOk result
        (λ t. t.kind ≡ target_kind (meaning_of names.now) (written_target raw.now)) }
{
    let var = variable(names, raw.index.is_some(), &raw.name, fault);
    let index = index(alloc, names, &raw.index, fault)?;
    Ok(Typed {
        part: Target {
            var: var.part,
            index,
        },
        kind: var.kind,
    })
}

/// Targets, and their kinds.
#[derive(Drop)]
struct TypedTargets {
    targets: List<Target>,
    kinds: Vec<Option<Kind>>,
}

/// Variables and cells that take values, in order.
fn all_targets(
    alloc: Global,
    names: &Names,
    raws: &[RawTarget],
    fault: &mut FirstFault,
) -> Result<TypedTargets, NoMemory>
    ensures checked { IfOk result
        (λ t. CheckedPart (meaning_of names.now) fault.old fault.new
        (flat_map (target_faults (meaning_of names.now)) (map written_target raws.now))
        (λ d. each_numbered (numbering.location d) (map written_target raws.now))
        (map location_of t.targets)) }
    ensures kinds { IfOk result
        (λ t. t.kinds.items
        ≡ map (target_kind (meaning_of names.now)) (map written_target raws.now)) }
{
    let mut targets = Vec::with_capacity(alloc, raws.len())?;
    let mut kinds = Vec::with_capacity(alloc, raws.len())?;
    for raw in raws {
        let typed = target(alloc, names, raw, fault)?;
        targets.push(typed.part)?;
        kinds.push(typed.kind)?;
    }
    let targets = List::from_vec(targets);
    Ok(TypedTargets { targets, kinds })
}

/// The kind that the value at a place must have.
pub fn wanted_at(kinds: &[Option<Kind>], i: usize) -> Option<Kind>
    ensures { result ≡ wanted kinds.now i }
{
    match kinds.get(i) {
        Some(kind) => *kind,
        None => None,
    }
}

/// Values beside the kinds that they must have, as far as both lists go.
pub(crate) fn values(
    alloc: Global,
    names: &Names,
    kinds: &[Option<Kind>],
    raws: &[RawExpr],
    fault: &mut FirstFault,
) -> Result<List<Expr>, NoMemory>
    ensures { IfOk result
        (λ es. CheckedPart (meaning_of names.now) fault.old fault.new
        (values_faults (meaning_of names.now) kinds.now (map written_expression raws.now))
        (λ d. each_numbered (numbering.expression d) (map written_expression raws.now))
        (map expression_of es)) }
{
    let mut values = Vec::with_capacity(alloc, raws.len())?;
    for (i, raw) in raws.iter().enumerate() {
        let typed = operand(alloc, names, wanted_at(kinds, i), raw, fault)?;
        values.push(typed.part)?;
    }
    Ok(List::from_vec(values))
}

/// A `set` of one target, of which no list of kinds is kept.
fn set_one(
    alloc: Global,
    names: &Names,
    raw: &RawTarget,
    raws: &[RawExpr],
    fault: &mut FirstFault,
) -> Result<Change, NoMemory>
    ensures { IfOk result
        (λ c. CheckedPart (meaning_of names.now) fault.old fault.new
        (stored_faults (meaning_of names.now) (written_target raw.now ∷ [])
        (map written_expression raws.now))
        (λ d. numbering.change d
        (written.Set 0 (written_target raw.now ∷ []) (map written_expression raws.now)))
        (change_of c)) }
{
    let typed = target(alloc, names, raw, fault)?;
    let targets = List::of_one(alloc, typed.part)?;
    let values = values(alloc, names, &[typed.kind], raws, fault)?;
    Ok(Change::Set { targets, values })
}

/// A `set` of any targets.
fn set_all(
    alloc: Global,
    names: &Names,
    targets: &[RawTarget],
    raws: &[RawExpr],
    fault: &mut FirstFault,
) -> Result<Change, NoMemory>
    ensures { IfOk result
        (λ c. CheckedPart (meaning_of names.now) fault.old fault.new
        (stored_faults (meaning_of names.now) (map written_target targets.now)
        (map written_expression raws.now))
        (λ d. numbering.change d
        (written.Set 0 (map written_target targets.now) (map written_expression raws.now)))
        (change_of c)) }
{
    let typed = all_targets(alloc, names, targets, fault)?;
    let values = values(alloc, names, typed.kinds.as_slice(), raws, fault)?;
    let targets = typed.targets;
    Ok(Change::Set { targets, values })
}

/// What the targets of a `set` take.
fn set_change(
    alloc: Global,
    names: &Names,
    targets: &[RawTarget],
    raws: &[RawExpr],
    fault: &mut FirstFault,
) -> Result<Change, NoMemory>
    ensures { IfOk result
        (λ c. CheckedPart (meaning_of names.now) fault.old fault.new
        (stored_faults (meaning_of names.now) (map written_target targets.now)
        (map written_expression raws.now))
        (λ d. numbering.change d
        (written.Set 0 (map written_target targets.now) (map written_expression raws.now)))
        (change_of c)) }
{
    if targets.len() == 1 {
        set_one(alloc, names, &targets[0], raws, fault)
    } else {
        set_all(alloc, names, targets, raws, fault)
    }
}

/// A `set`, at its word.
fn set(
    alloc: Global,
    names: &Names,
    at: usize,
    targets: &[RawTarget],
    raws: &[RawExpr],
    fault: &mut FirstFault,
) -> Result<Change, NoMemory>
    ensures { IfOk result
        (λ c. CheckedPart (meaning_of names.now) fault.old fault.new
        (change_faults (meaning_of names.now)
        (written.Set at (map written_target targets.now) (map written_expression raws.now)))
        (λ d. numbering.change d
        (written.Set at (map written_target targets.now) (map written_expression raws.now)))
        (change_of c)) }
{
    let differs = targets.len() != raws.len();
    fault.note(differs, StaticKind::ValueCount, at);
    report_too_many(TARGETS_MAX, targets, fault);
    let change = set_change(alloc, names, targets, raws, fault)?;
    Ok(change)
}

/// What a draw takes its value from.
fn choice(names: &Names, raw: &RawChoice, fault: &mut FirstFault) -> Choice
    ensures { CheckedPart (meaning_of names.now) fault.old fault.new
        (choice_faults (meaning_of names.now) (written_choice raw.now))
        (λ d. numbering.choice d (written_choice raw.now)) (choice_of result) }
{
    match raw {
        RawChoice::Uniform { lo, hi } => {
            let least = literal(lo, fault);
            let most = literal(hi, fault);
            report_empty_range(lo, hi, fault);
            report_wide_range(lo, hi, fault);
            Choice::Uniform {
                lo: least,
                hi: most,
            }
        }
        RawChoice::ByTable { table: name } => Choice::ByTable {
            table: table(names, name, fault),
        },
    }
}

/// The source of a draw: the number of a random stream, 0 to 63, and what is drawn from it.
pub fn source(
    names: &Names,
    stream: &RawNumber,
    from: &RawChoice,
    fault: &mut FirstFault,
) -> (u8, Choice)
    ensures { Checked fault.old fault.new
        (source_faults (meaning_of names.now) (written_number stream.now)
        (written_choice from.now))
        ((natural (written_number stream.now) ≡ Some result.0)
        × NumberedAs (meaning_of names.now) (λ d. numbering.choice d (written_choice from.now))
        (choice_of result.1)) }
{
    let stream = bounded(stream, 0, 63, StaticKind::StreamOutside, fault);
    let choice = choice(names, from, fault);
    (stream as u8, choice)
}

/// A `draw`.
fn draw(
    alloc: Global,
    names: &Names,
    raw: &RawTarget,
    stream: &RawNumber,
    from: &RawChoice,
    fault: &mut FirstFault,
) -> Result<Change, NoMemory>
    ensures { IfOk result
        (λ c. CheckedPart (meaning_of names.now) fault.old fault.new
        (change_faults (meaning_of names.now)
        (written.Draw 0 (written_target raw.now) (written_number stream.now)
        (written_choice from.now)))
        (λ d. numbering.change d
        (written.Draw 0 (written_target raw.now) (written_number stream.now)
        (written_choice from.now))) (change_of c)) }
{
    let drawn = target(alloc, names, raw, fault)?;
    let differs = kinds_differ(Some(Kind::Range), drawn.kind);
    fault.note(differs, StaticKind::KindMismatch, raw.name.at);
    let (stream, choice) = source(names, stream, from, fault);
    Ok(Change::Draw {
        target: drawn.part,
        stream,
        choice,
    })
}

/// A change.
pub fn change(
    alloc: Global,
    names: &Names,
    raw: &RawChange,
    fault: &mut FirstFault,
) -> Result<Change, NoMemory>
    ensures { IfOk result
        (λ c. CheckedPart (meaning_of names.now) fault.old fault.new
        (change_faults (meaning_of names.now) (written_change raw.now))
        (λ d. numbering.change d (written_change raw.now)) (change_of c)) }
{
    match raw {
        RawChange::Set {
            at,
            targets,
            values,
        } => set(
            alloc,
            names,
            *at,
            targets.as_slice(),
            values.as_slice(),
            fault,
        ),
        RawChange::Draw {
            target,
            stream,
            choice,
            ..
        } => draw(alloc, names, target, stream, choice, fault),
    }
}

/// The changes of a vertex.
pub fn changes(
    alloc: Global,
    names: &Names,
    raws: &[RawChange],
    fault: &mut FirstFault,
) -> Result<List<Change>, NoMemory>
    ensures { IfOk result
        (λ cs. CheckedPart (meaning_of names.now) fault.old fault.new
        (flat_map (change_faults (meaning_of names.now)) (map written_change raws.now))
        (λ d. each_numbered (numbering.change d) (map written_change raws.now))
        (map change_of cs)) }
{
    let mut changes = Vec::with_capacity(alloc, raws.len())?;
    for raw in raws {
        let change = change(alloc, names, raw, fault)?;
        changes.push(change)?;
    }
    Ok(List::from_vec(changes))
}
