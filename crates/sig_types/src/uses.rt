//! Uses of names: as a variable, a table or a vertex, or in the watch list.

ghost use Rattle.std.specs.Prelude.{◌≡◌, ℕ, Bool, Some};
ghost use Rattle.std.specs.Option.{option_map};
ghost use Rattle.model_core.specs.declared.model.Kind.{Kind as KnownKind};
ghost use Rattle.model_core.specs.Code.Views.{watched_of};
ghost use Rattle.model_core.specs.Code.WrittenViews.{written_name};
ghost use Rattle.model_core.specs.EventGraph.{WatchedVariable, WatchedVertex};
ghost use Rattle.model_core.specs.Text.Numbering.{declared_place};
ghost use Rattle.model_core.specs.Text.Numbering as numbering;
ghost use Rattle.model_core.specs.Static.FaultOrder.{earliest_fault};
ghost use Rattle.model_core.specs.Static.Meanings.{MeansVariable, MeansTable, MeansVertex, AsScalar, AsTable, AsVertex, AsWatched, fits_role, meaning_of};
ghost use Rattle.model_core.specs.Static.Kinds.{kind_in_role};
ghost use Rattle.model_core.specs.Static.PartFaults.{use_faults};
ghost use Rattle.static_laws.specs.Checked.{CheckedPart};
ghost use Rattle.sig_types.specs.Seen.{meaning_seen, role_seen};
ghost use Rattle.static_laws.specs.Roles.{variable_role, vertex_meant};

use crate::first_fault::FirstFault;
use crate::kinds::Typed;
use crate::names::{Meaning, Names};
use model_core::{Kind, RawName, StaticKind, Watch};
use sig_base::NAME_MAX;

/// What a name is used as.
#[derive(Clone, Copy)]
pub enum Role {
    Scalar,
    Array,
    Table,
    Vertex,
    Watched,
}

/// Whether a name of this meaning may be used so.
#[inline(always)]
fn is_fit(role: Role, meaning: Meaning) -> bool
    ensures { result ≡ fits_role (role_seen role) (meaning_seen meaning) }
{
    match (role, meaning) {
        (Role::Scalar, Meaning::Variable { is_array, .. }) => !is_array,
        (Role::Array, Meaning::Variable { is_array, .. }) => is_array,
        (Role::Table, Meaning::Table(_)) => true,
        (Role::Vertex, Meaning::Vertex(_)) => true,
        (Role::Watched, Meaning::Variable { .. } | Meaning::Vertex(_)) => true,
        _ => false,
    }
}

/// What the name that these bytes spell means, at this place and used so.
#[inline(always)]
fn meaning_of_use(
    names: &Names,
    role: Role,
    name: &[u8],
    at: usize,
    fault: &mut FirstFault,
) -> Option<Meaning>
    ensures earliest { fault.new
        ≡ earliest_fault fault.old
        (use_faults (meaning_of names.now) (role_seen role) (record { name = name.now; at = at })) }
    ensures means { option_map meaning_seen result ≡ meaning_of names.now name.now }
{
    fault.note(name.len() > NAME_MAX, StaticKind::NameTooLong, at);
    let meaning = names.find(name);
    fault.note(meaning.is_none(), StaticKind::UnknownName, at);
    let misused = match meaning {
        None => false,
        Some(meaning) => !is_fit(role, meaning),
    };
    fault.note(misused, StaticKind::WrongUse, at);
    meaning
}

/// The place and the kind of a scalar or an array. Of anything else 0, and no kind.
#[inline(always)]
fn variable_meant(meaning: Option<Meaning>, is_array: bool) -> Typed<usize>
    ensures place { (k : ℕ) (kind : KnownKind)
        → option_map meaning_seen meaning ≡ Some (MeansVariable k kind is_array) → result.part ≡ k }
    ensures kind { result.kind
        ≡ kind_in_role (variable_role is_array) (option_map meaning_seen meaning) }
{
    match meaning {
        Some(
            Meaning::Variable {
                var,
                kind,
                is_array: has_cells,
            },
        ) if is_array == has_cells => Typed {
            part: var,
            kind: Some(kind),
        },
        _ => Typed {
            part: 0,
            kind: None,
        },
    }
}

/// A name that is used as a variable, where it is in the text.
#[inline(always)]
pub fn spelled_variable(
    names: &Names,
    is_array: bool,
    name: &[u8],
    at: usize,
    fault: &mut FirstFault,
) -> Typed<usize>
    ensures checked { CheckedPart (meaning_of names.now) fault.old fault.new
        (use_faults (meaning_of names.now) (variable_role is_array)
        (record { name = name.now; at = at }))
        (λ d. declared_place name.now d.variables) result.part }
    ensures kind { result.kind
        ≡ kind_in_role (variable_role is_array) (meaning_of names.now name.now) }
{
    let role = if is_array { Role::Array } else { Role::Scalar };
    let meaning = meaning_of_use(names, role, name, at, fault);
    variable_meant(meaning, is_array)
}

/// A name that is used as a variable.
pub(crate) fn variable(
    names: &Names,
    is_array: bool,
    raw: &RawName,
    fault: &mut FirstFault,
) -> Typed<usize>
    ensures checked { CheckedPart (meaning_of names.now) fault.old fault.new
        (use_faults (meaning_of names.now) (variable_role is_array) (written_name raw.now))
        (λ d. declared_place raw.now.name d.variables) result.part }
    ensures kind { result.kind
        ≡ kind_in_role (variable_role is_array) (meaning_of names.now raw.now.name) }
{
    spelled_variable(names, is_array, raw.name.as_slice(), raw.at, fault)
}

/// The kind of a scalar of this name.
pub(crate) fn kind_of_scalar(names: &Names, raw: &RawName) -> Option<Kind>
    ensures { result ≡ kind_in_role AsScalar (meaning_of names.now raw.now.name) }
{
    let meaning = names.find(raw.name.as_slice());
    variable_meant(meaning, false).kind
}

/// The place of a table. Of anything else 0.
fn table_meant(meaning: Option<Meaning>) -> usize
    ensures { (k : ℕ) → option_map meaning_seen meaning ≡ Some (MeansTable k) → result ≡ k }
{
    match meaning {
        Some(Meaning::Table(table)) => table,
        _ => 0,
    }
}

/// A name that is used as a table.
pub(crate) fn table(names: &Names, raw: &RawName, fault: &mut FirstFault) -> usize
    ensures { CheckedPart (meaning_of names.now) fault.old fault.new
        (use_faults (meaning_of names.now) AsTable (written_name raw.now))
        (λ d. declared_place raw.now.name d.tables) result }
{
    let meaning = meaning_of_use(names, Role::Table, raw.name.as_slice(), raw.at, fault);
    table_meant(meaning)
}

/// The place of a vertex. Of anything else none.
fn place_of_vertex(meaning: Option<Meaning>) -> Option<usize>
    ensures { result ≡ vertex_meant (option_map meaning_seen meaning) }
{
    match meaning {
        Some(Meaning::Vertex(vertex)) => Some(vertex),
        _ => None,
    }
}

/// A name that is used as a vertex, where it is in the text. `None` where it isn't one.
pub fn spelled_vertex(
    names: &Names,
    name: &[u8],
    at: usize,
    fault: &mut FirstFault,
) -> Option<usize>
    ensures checked { CheckedPart (meaning_of names.now) fault.old fault.new
        (use_faults (meaning_of names.now) AsVertex (record { name = name.now; at = at }))
        (λ d. option_map (λ k. Some k) (declared_place name.now d.vertices)) result }
    ensures means { result ≡ vertex_meant (meaning_of names.now name.now) }
{
    let meaning = meaning_of_use(names, Role::Vertex, name, at, fault);
    place_of_vertex(meaning)
}

/// A name that is used as a vertex. `None` where it isn't one.
pub(crate) fn vertex(names: &Names, raw: &RawName, fault: &mut FirstFault) -> Option<usize>
    ensures checked { CheckedPart (meaning_of names.now) fault.old fault.new
        (use_faults (meaning_of names.now) AsVertex (written_name raw.now))
        (λ d. option_map (λ k. Some k) (declared_place raw.now.name d.vertices)) result }
    ensures means { result ≡ vertex_meant (meaning_of names.now raw.now.name) }
{
    spelled_vertex(names, raw.name.as_slice(), raw.at, fault)
}

/// What is watched. Of what can't be watched the first variable.
fn watch_meant(meaning: Option<Meaning>) -> Watch
    ensures variable { (k : ℕ) (kind : KnownKind) (array : Bool)
        → option_map meaning_seen meaning ≡ Some (MeansVariable k kind array)
        → watched_of result ≡ WatchedVariable k }
    ensures vertex { (k : ℕ) → option_map meaning_seen meaning ≡ Some (MeansVertex k)
        → watched_of result ≡ WatchedVertex k }
{
    match meaning {
        Some(Meaning::Variable { var, .. }) => Watch::Variable { var },
        Some(Meaning::Vertex(vertex)) => Watch::Event { vertex },
        _ => Watch::Variable { var: 0 },
    }
}

/// A name that is watched.
pub(crate) fn watched(names: &Names, raw: &RawName, fault: &mut FirstFault) -> Watch
    ensures { CheckedPart (meaning_of names.now) fault.old fault.new
        (use_faults (meaning_of names.now) AsWatched (written_name raw.now))
        (λ d. numbering.watched d (written_name raw.now)) (watched_of result) }
{
    let meaning = meaning_of_use(names, Role::Watched, raw.name.as_slice(), raw.at, fault);
    watch_meant(meaning)
}
