//! Which entries of a pending list a scan looks for: any, those of a vertex, or those that also carry given values.

ghost use Rattle.std.specs.Prelude.{◌≡◌, true};
ghost use Rattle.model_core.specs.Run.Pending.{is_of, is_event_with};

use crate::carried_values::same;
use crate::entry::Entry;
use sig_base::Carried;

/// Which entries are looked for.
pub trait EntryFilter {
    ghost use Rattle.std.specs.Prelude.{Bool};
    ghost use Rattle.model_core.specs.Run.Pending.{Entry as Scheduled};

    // Whether an entry is one of them.
    ghost test: { Self → Scheduled → Bool };

    /// Whether an entry is one of them.
    fn wants(&self, entry: &Entry) -> bool
        ensures { result ≡ test self.now entry.now };
}

/// All entries.
#[derive(Drop)]
pub struct AnyEntry;

impl EntryFilter for AnyEntry {
    ghost test = { λ w e. true };

    fn wants(&self, _entry: &Entry) -> bool {
        true
    }
}

/// The entries of a vertex.
#[derive(Drop)]
pub struct EntryOf(pub usize);

impl EntryFilter for EntryOf {
    ghost test = { λ w e. is_of w.0 e };

    fn wants(&self, entry: &Entry) -> bool {
        entry.vertex == self.0
    }
}

/// The entries of a vertex that carry exactly these values.
#[derive(Drop)]
pub struct EntryWith<'v>(pub usize, pub &'v Carried);

impl EntryFilter for EntryWith<'_> {
    ghost test = { λ w e. is_event_with w.0 w.1.now.items e };

    fn wants(&self, entry: &Entry) -> bool {
        entry.vertex == self.0 && same(&entry.values, self.1)
    }
}
