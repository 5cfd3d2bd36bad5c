//! Changes, which are checked as they are read. Where a change breaks a static rule these functions give up, but for the last
//! one, which reports the rule.

ghost use Rattle.std.specs.Prelude.{◌≡◌, ◌+◌, ◌≤◌, Bool, cond, [], ◌∷◌, length, map, IfOk};
ghost use Rattle.sig_base.specs.declared.limits.TheConstants.{TARGETS_MAX, TARGETS_MAX_VERSION_1};
ghost use Rattle.model_core.specs.Code.Views.{location_of, choice_of, change_of};
ghost use Rattle.model_core.specs.Code.WrittenViews.{written_change};
ghost use Rattle.model_core.specs.Text.Format.{separated};
ghost use Rattle.model_core.specs.Text.Language.{target_format, change_format};
ghost use Rattle.model_core.specs.Text.Numbering as numbering;
ghost use Rattle.model_core.specs.Static.Meanings.{meaning_of};
ghost use Rattle.model_core.specs.Static.FaultOrder.{earliest_fault};
ghost use Rattle.model_core.specs.Static.VersionFaults.{target_faults_version_1};
ghost use Rattle.text_laws.specs.LanguageReader.{language_reader};
ghost use Rattle.model_read.specs.Sources.{written_source};
ghost use Rattle.one_pass.specs.Inner.AllFaults.{all_change_faults};
ghost use Rattle.one_pass.specs.Inner.ReadParts.{ReadSure, ReadChecked};
ghost use Rattle.one_pass.specs.Inner.ReadRows.{ReadRow};
ghost use Rattle.one_pass.specs.Inner.ReadTargets.{IsTarget, ReadTarget};
ghost use Rattle.one_pass.specs.Inner.ReadSources.{IsSource, ReadSource};

use crate::expressions::{Operand, bracketed, known_variable};
use crate::not_read::NotRead;
use crate::refusing::refuse_fault;
use crate::values::values;
use arrayvec::ArrayVec;
use model_core::{Change, Choice, Kind, RawChange, Symbol, Target, Word};
use model_read::{Cursor, Phrase, RawSource, packed};
use sig_base::{HeldValue, List, NoMemory, TARGETS_MAX, TARGETS_MAX_VERSION_1};
use sig_types::{FirstFault, Names, Typed, kinds_differ, report_target_count};
use std::alloc::Global;

/// Reads a variable or a cell that takes a value.
fn target(alloc: Global, cursor: &mut Cursor<'_>, names: &Names) -> Result<Typed<Target>, NotRead>
    ensures reads { IfOk result
        (λ t. ReadTarget (meaning_of names.now)
        (language_reader target_format cursor.old) cursor.new (location_of t.part) t.kind) }
    ensures shorter { IfOk result (λ t. length cursor.new + 1 ≤ length cursor.old) }
{
    let name = cursor.spelling()?;
    let is_array = cursor.begins_symbol(Symbol::OpenBracket);
    let var = known_variable(names, is_array, name)?;
    let index = if is_array {
        let mut index = Operand::unread();
        bracketed(alloc, cursor, names, &mut index)?;
        Some(index.into_expr())
    } else {
        None
    };
    Ok(Typed {
        part: Target {
            var: var.part,
            index,
        },
        kind: var.kind,
    })
}

/// Targets, and the kind of each.
#[derive(Drop)]
struct TypedTargets {
    targets: List<Target>,
    kinds: ArrayVec<Option<Kind>, TARGETS_MAX>,
}

/// The list of one target, with room for another where a comma comes: most changes have one target or two.
#[inline(always)]
fn targets_begun_with(
    alloc: Global,
    cursor: &Cursor<'_>,
    first: Target,
) -> Result<List<Target>, NoMemory>
    ensures { IfOk result (λ targets. targets ≡ first ∷ []) }
{
    if !cursor.begins_symbol(Symbol::Comma) {
        return List::of_one(alloc, first);
    }
    let mut targets = Vec::with_capacity(alloc, 2)?;
    targets.push(first)?;
    Ok(List::from_vec(targets))
}

/// How many targets a change may have.
fn targets_limit(is_two: bool) -> usize
    ensures is { result ≡ cond is_two TARGETS_MAX TARGETS_MAX_VERSION_1 }
    ensures some { 1 ≤ result }
    ensures within { result ≤ TARGETS_MAX }
{
    if is_two {
        TARGETS_MAX
    } else {
        TARGETS_MAX_VERSION_1
    }
}

/// Reads targets, separated by commas: no more than a limit.
fn targets(
    alloc: Global,
    cursor: &mut Cursor<'_>,
    names: &Names,
    limit: usize,
) -> Result<TypedTargets, NotRead>
    requires some { 1 ≤ limit }
    requires within { limit ≤ TARGETS_MAX }
    ensures reads { IfOk result
        (λ t. ReadRow (separated target_format)
        (IsTarget (meaning_of names.now)) cursor.old cursor.new (map location_of t.targets)
        t.kinds.items) }
    ensures within { IfOk result (λ t. length t.kinds.items ≤ limit) }
{
    let first = target(alloc, cursor, names)?;
    let mut targets = targets_begun_with(alloc, cursor, first.part)?;
    let mut kinds = ArrayVec::new();
    kinds.push(first.kind);
    while cursor.begins_symbol(Symbol::Comma) {
        cursor.symbol(Symbol::Comma)?;
        if kinds.len() >= limit {
            return Err(NotRead::Unsure);
        }
        let next = target(alloc, cursor, names)?;
        targets.push(next.part)?;
        kinds.push(next.kind);
    }
    Ok(TypedTargets {
        targets: packed(targets),
        kinds,
    })
}

/// Reads a change that computes values.
fn set(
    alloc: Global,
    cursor: &mut Cursor<'_>,
    names: &Names,
    is_two: bool,
) -> Result<Change, NotRead>
    ensures { IfOk result
        (λ c. ReadSure change_format (meaning_of names.now)
        (all_change_faults is_two (meaning_of names.now)) numbering.change cursor.old cursor.new
        (change_of c)) }
{
    cursor.word(Word::Set)?;
    let limit = targets_limit(is_two);
    let TypedTargets { targets, kinds } = targets(alloc, cursor, names, limit)?;
    cursor.symbol(Symbol::Becomes)?;
    let values = values(alloc, cursor, names, kinds.as_slice())?;
    cursor.symbol(Symbol::Semicolon)?;
    Ok(Change::Set { targets, values })
}

/// The source of a draw that is written, where it breaks no static rule.
fn checked(names: &Names, raw: &RawSource) -> Result<(u8, Choice), NotRead>
    ensures { IfOk result
        (λ s. IsSource (meaning_of names.now) (written_source raw.now) s.0 (choice_of s.1)) }
{
    let mut fault = FirstFault::new();
    let source = sig_types::source(names, &raw.stream, &raw.choice, &mut fault);
    refuse_fault(&fault)?;
    Ok(source)
}

/// Reads the source of a draw as it is written, and checks it then.
pub(crate) fn source(
    alloc: Global,
    cursor: &mut Cursor<'_>,
    names: &Names,
) -> Result<(u8, Choice), NotRead>
    ensures { IfOk result
        (λ s. ReadSource (meaning_of names.now) cursor.old cursor.new s.0 (choice_of s.1)) }
{
    let raw = model_read::source(alloc, cursor)?;
    checked(names, &raw)
}

/// Reads a change that draws a value.
fn draw(alloc: Global, cursor: &mut Cursor<'_>, names: &Names) -> Result<Change, NotRead>
    ensures { (is_two : Bool)
        → IfOk result
        (λ c. ReadSure change_format (meaning_of names.now)
        (all_change_faults is_two (meaning_of names.now)) numbering.change cursor.old cursor.new
        (change_of c)) }
{
    cursor.word(Word::Draw)?;
    let typed = target(alloc, cursor, names)?;
    if kinds_differ(Some(Kind::Range), typed.kind) {
        return Err(NotRead::Unsure);
    }
    let target = HeldValue::of(typed.part);
    let (stream, choice) = source(alloc, cursor, names)?;
    cursor.symbol(Symbol::Semicolon)?;
    Ok(Change::Draw {
        target: target.free(),
        stream,
        choice,
    })
}

/// Reads a change that breaks no static rule.
pub(crate) fn change(
    alloc: Global,
    cursor: &mut Cursor<'_>,
    names: &Names,
    is_two: bool,
) -> Result<Change, NotRead>
    ensures { IfOk result
        (λ c. ReadSure change_format (meaning_of names.now)
        (all_change_faults is_two (meaning_of names.now)) numbering.change cursor.old cursor.new
        (change_of c)) }
{
    if cursor.begins_word(Word::Set) {
        set(alloc, cursor, names, is_two)
    } else {
        draw(alloc, cursor, names)
    }
}

/// Reports what a change breaks in a text that isn't of version 2.
fn report_targets(is_two: bool, raw: &RawChange, fault: &mut FirstFault)
    ensures { fault.new ≡ earliest_fault fault.old
        (cond is_two [] (target_faults_version_1 (written_change raw.now))) }
{
    if !is_two {
        report_target_count(raw, fault);
    }
}

/// Reads a change as it is written, and checks it then.
pub(crate) fn checked_change(
    alloc: Global,
    cursor: &mut Cursor<'_>,
    names: &Names,
    is_two: bool,
    fault: &mut FirstFault,
) -> Result<Change, NotRead>
    ensures { IfOk result
        (λ c. ReadChecked change_format (meaning_of names.now)
        (all_change_faults is_two (meaning_of names.now)) numbering.change fault.old fault.new
        cursor.old cursor.new (change_of c)) }
{
    let raw = RawChange::read(alloc, cursor)?;
    let change = sig_types::change(alloc, names, &raw, fault)?;
    report_targets(is_two, &raw, fault);
    Ok(change)
}
