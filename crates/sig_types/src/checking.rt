//! The check of a whole model.

ghost use Rattle.std.specs.Prelude.{◌≡◌, ◌++◌, ℕ, nat_lt, Option, [], length, map, IfOk, OnOk, Err, Some, None};
ghost use Rattle.std.specs.List.{flat_map};
ghost use Rattle.sig_base.specs.declared.limits.TheConstants.{TEXT_MAX};
ghost use Rattle.model_core.specs.declared.static_kind.StaticKind.{StaticKind as Rule};
ghost use Rattle.model_core.specs.Code.Views.{variable_of, table_of, watched_of, graph_of};
ghost use Rattle.model_core.specs.Code.WrittenViews.{written_name, written_variable, written_table, written_model};
ghost use Rattle.model_core.specs.Text.Canonical.{canonical};
ghost use Rattle.model_core.specs.Text.Numbering as numbering;
ghost use Rattle.model_core.specs.Text.Numbering.{each_numbered};
ghost use Rattle.model_core.specs.Static.FaultOrder.{StaticFault, earliest_fault};
ghost use Rattle.model_core.specs.Static.Meanings.{AsWatched, declarations, declared_name, meaning_of};
ghost use Rattle.model_core.specs.Static.RuleTable.{model_too_long};
ghost use Rattle.model_core.specs.Static.PartFaults.{use_faults, repeated_names, variable_faults, table_faults};
ghost use Rattle.model_core.specs.Static.ModelFaults.{model_meaning, model_takes, faults_of_counts, faults_of_parts, first_fault, Accepted, IsFirstFault};
ghost use Rattle.sig_types.specs.declared.error.StaticError.TheVariants as errors;
ghost use Rattle.static_laws.specs.Checked.{Checked, CheckedPart, CheckedPlain};
ghost use Rattle.static_laws.specs.DeclaredFaults.{faults_of_declared};

use crate::declaring::{declare_all, report_long_name};
use crate::edges::items;
use crate::error::StaticError;
use crate::first_fault::FirstFault;
use crate::names::Names;
use crate::part_places::report_too_many;
use crate::tables::check_tables;
use crate::variables::check_variables;
use crate::versions::report_version;
use crate::vertices::{parameter_kinds, vertices};
use crate::watch::watch_list;
use model_core::{Kind, Model, RawModel, RawName, RawTable, RawVar, StaticKind, Var, Watch};
use model_print::printed_length;
use sig_base::{List, NoMemory, TABLES_MAX, TEXT_MAX, Table, VARIABLES_MAX, VERTICES_MAX};
use std::alloc::Global;

/// The names that a model declares. Those that are declared again are reported.
fn names_of(alloc: Global, raw: &RawModel, fault: &mut FirstFault) -> Result<Names, NoMemory>
    ensures means { IfOk result
        (λ names. meaning_of names ≡ model_meaning (written_model raw.now)) }
    ensures earliest { OnOk result
        (fault.new ≡ earliest_fault fault.old
        (repeated_names [] (map declared_name (declarations (written_model raw.now))))) }
{
    let count = raw.vars.len().saturating_add(raw.tables.len());
    let mut names = Names::with_capacity(alloc, count.saturating_add(raw.vertices.len()))?;
    declare_all(alloc, &mut names, raw.vars.as_slice(), fault)?;
    declare_all(alloc, &mut names, raw.tables.as_slice(), fault)?;
    declare_all(alloc, &mut names, raw.vertices.as_slice(), fault)?;
    Ok(names)
}

/// Reports the declarations that are too many.
fn report_counts(raw: &RawModel, fault: &mut FirstFault)
    ensures { fault.new ≡ earliest_fault fault.old (faults_of_counts (written_model raw.now)) }
{
    report_too_many(VARIABLES_MAX, raw.vars.as_slice(), fault);
    report_too_many(TABLES_MAX, raw.tables.as_slice(), fault);
    report_too_many(VERTICES_MAX, raw.vertices.as_slice(), fault);
}

/// The names that a model declares. Faults of its own name are reported, and names declared again, and declarations too many.
pub fn declared(alloc: Global, raw: &RawModel, fault: &mut FirstFault) -> Result<Names, NoMemory>
    ensures means { IfOk result
        (λ names. meaning_of names ≡ model_meaning (written_model raw.now)) }
    ensures earliest { OnOk result
        (fault.new ≡ earliest_fault fault.old (faults_of_declared (written_model raw.now))) }
{
    report_long_name(&raw.name, fault);
    let names = names_of(alloc, raw, fault)?;
    report_counts(raw, fault);
    Ok(names)
}

/// The variables, tables and watch list of a model.
#[derive(Drop)]
pub struct CheckedLists {
    pub vars: List<Var>,
    pub tables: List<Table>,
    pub watch: List<Watch>,
}

/// Checks the variables of a model, then its tables, and then its watch list.
pub fn check_lists(
    alloc: Global,
    names: &Names,
    vars: List<RawVar>,
    tables: List<RawTable>,
    watch: &[RawName],
    fault: &mut FirstFault,
) -> Result<CheckedLists, NoMemory>
    ensures { IfOk result (λ lists. (first : Option StaticFault) × (second : Option StaticFault)
        × CheckedPlain fault.old first (flat_map variable_faults (map written_variable vars))
        (each_numbered numbering.variable (map written_variable vars)) (map variable_of lists.vars)
        × CheckedPlain first second (flat_map table_faults (map written_table tables))
        (each_numbered numbering.table (map written_table tables)) (map table_of lists.tables)
        × CheckedPart (meaning_of names.now) second fault.new
        (flat_map (use_faults (meaning_of names.now) AsWatched) (map written_name watch.now)
        ++ repeated_names [] (map written_name watch.now))
        (λ d. each_numbered (numbering.watched d) (map written_name watch.now))
        (map watched_of lists.watch)) }
{
    let vars = check_variables(alloc, vars, fault)?;
    let tables = check_tables(alloc, tables, fault)?;
    let watch = watch_list(alloc, names, watch, fault)?;
    Ok(CheckedLists {
        vars,
        tables,
        watch,
    })
}

/// The model among these names, where the vertices take parameters of these kinds. What the raw model held is let go
/// part by part.
fn numbered_among(
    alloc: Global,
    names: &Names,
    taken: &[List<Option<Kind>>],
    raw: RawModel,
    fault: &mut FirstFault,
) -> Result<Model, NoMemory>
    ensures { IfOk result
        (λ model. meaning_of names.now ≡ model_meaning (written_model raw)
        → taken.now ≡ model_takes (written_model raw)
        → (start : Option StaticFault)
        → fault.old ≡ earliest_fault start (faults_of_declared (written_model raw))
        → Checked start fault.new (faults_of_parts (written_model raw))
        (numbering.numbered (written_model raw) ≡ Some (graph_of model))) }
{
    let lists = check_lists(alloc, names, raw.vars, raw.tables, items(&raw.watch), fault)?;
    let vertices = vertices(alloc, names, taken, raw.vertices, fault)?;
    Ok(Model {
        name: raw.name.name,
        vars: lists.vars,
        tables: lists.tables,
        watch: lists.watch,
        vertices,
    })
}

/// The names that a model declares, and the kinds of the parameters of each vertex.
#[derive(Drop)]
struct NamesAndKinds {
    names: Names,
    taken: List<List<Option<Kind>>>,
}

/// The names and the kinds of parameters, which the checks of parts need. It reports what `declared` reports.
fn names_and_kinds(
    alloc: Global,
    raw: &RawModel,
    fault: &mut FirstFault,
) -> Result<NamesAndKinds, NoMemory>
    ensures means { IfOk result
        (λ known. meaning_of known.names ≡ model_meaning (written_model raw.now)) }
    ensures takes { IfOk result (λ known. known.taken ≡ model_takes (written_model raw.now)) }
    ensures earliest { OnOk result
        (fault.new ≡ earliest_fault fault.old (faults_of_declared (written_model raw.now))) }
{
    let names = declared(alloc, raw, fault)?;
    let taken = parameter_kinds(alloc, &names, raw.vertices.as_slice())?;
    Ok(NamesAndKinds { names, taken })
}

/// The model with numbers in place of names. Where it has a fault, nothing is said of what is given.
fn numbered(alloc: Global, raw: RawModel, fault: &mut FirstFault) -> Result<Model, NoMemory>
    ensures { IfOk result
        (λ model. Checked fault.old fault.new (faults_of_parts (written_model raw))
        (numbering.numbered (written_model raw) ≡ Some (graph_of model))) }
{
    let known = names_and_kinds(alloc, &raw, fault)?;
    numbered_among(alloc, &known.names, known.taken.as_slice(), raw, fault)
}

/// Whether the canonical text of a model has too many bytes.
fn is_too_long(model: &Model) -> bool
    ensures { result ≡ nat_lt TEXT_MAX (length (canonical (graph_of model.now))) }
{
    printed_length(model) > TEXT_MAX as u64
}

/// Where no other fault was found, reports that the canonical text of a model has too many bytes.
pub fn report_long_text(model: &Model, end_at: usize, fault: &mut FirstFault)
    ensures none { fault.old ≡ None
        → fault.new ≡ earliest_fault None
        (model_too_long TEXT_MAX (canonical (graph_of model.now)) end_at) }
    ensures some { (f : StaticFault) → fault.old ≡ Some f → fault.new ≡ fault.old }
{
    if fault.first_fault().is_none() {
        fault.note(is_too_long(model), StaticKind::ModelTooLong, end_at);
    }
}

/// The model with numbers in place of names. `fault` keeps the first of all its faults.
fn model_with_faults(
    alloc: Global,
    raw: RawModel,
    fault: &mut FirstFault,
) -> Result<Model, NoMemory>
    requires { fault.old ≡ None }
    ensures earliest { OnOk result (fault.new ≡ first_fault (written_model raw)) }
    ensures numbered { IfOk result
        (λ model. faults_of_parts (written_model raw) ≡ []
        → numbering.numbered (written_model raw) ≡ Some (graph_of model)) }
{
    let end_at = raw.end_at;
    report_version(&raw, fault);
    let model = numbered(alloc, raw, fault)?;
    report_long_text(&model, end_at, fault);
    Ok(model)
}

/// The model that is written, where it keeps every static rule, and else the fault at the least byte of the text; of those
/// at one byte, the first in the order of `StaticKind`.
pub fn check(alloc: Global, raw: RawModel) -> Result<Model, StaticError>
    // What is accepted is numbered as it is written, and breaks no rule.
    ensures accepted { IfOk result (λ model. Accepted (written_model raw) (graph_of model)) }
    // The rule is broken, at the least place, and there no rule before it in the table is.
    ensures refused { (kind : Rule) (at : ℕ) → result ≡ Err (errors.Fault kind at)
        → IsFirstFault (written_model raw) kind at }
{
    let mut fault = FirstFault::new();
    let model = model_with_faults(alloc, raw, &mut fault)?;
    match fault.first_fault() {
        None => Ok(model),
        Some(found) => Err(StaticError::Fault {
            kind: found.kind,
            at: found.at,
        }),
    }
}
