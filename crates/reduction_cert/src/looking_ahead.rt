//! Whether an application drops one vertex alone, so that a merge before it need not keep what that vertex does.

ghost use Rattle.std.specs.Prelude.{◌≡◌, ◌↔◌, [], ◌∷◌, true, map, drop};
ghost use Rattle.model_core.specs.Code.Views.{application_of};
ghost use Rattle.model_core.specs.Rules.Reduction.{Drop};
ghost use Rattle.reduction_cert.specs.Inner.MergeBeforeDrop.{BeginsWithDrop};

use model_core::Application;
use sig_base::Name;

/// Whether this name is the only one of these.
fn is_alone(names: &[Name], name: &Name) -> bool
    ensures { result ≡ true ↔ names.now ≡ name.now ∷ [] }
{
    names.len() == 1 && names[0].as_slice() == name.as_slice()
}

/// Whether the application at this place drops the vertex of this name alone.
pub(crate) fn drops_alone(applications: &[Application], place: usize, name: &Name) -> bool
    ensures { result ≡ true
        ↔ BeginsWithDrop name.now (map application_of (drop place applications.now)) }
{
    match applications.get(place) {
        Some(application) => is_drop_of(application, name),
        None => false,
    }
}

/// Whether this application does.
fn is_drop_of(application: &Application, name: &Name) -> bool
    ensures { result ≡ true ↔ application_of application.now ≡ Drop (name.now ∷ []) }
{
    match application {
        Application::Drop { vertices } => is_alone(vertices.as_slice(), name),
        Application::Prune { vertex: _, edge: _ } => false,
        Application::Settle { vertex: _, edge: _ } => false,
        Application::Merge {
            vertex: _,
            target: _,
        } => false,
        Application::Slice { vars: _ } => false,
    }
}
