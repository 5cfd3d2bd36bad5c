//! The bytes of a name, with a type of their own: a name is never a text.

ghost use Rattle.std.specs.Prelude.{◌≡◌};

use std::marker::Model;

/// The bytes of a name, which contracts see as a plain list of numbers.
#[derive(Drop)]
pub struct Name {
    bytes: Vec<u8>,
}

impl Model for Name {
    ghost use Rattle.std.specs.Prelude.{List, ℕ};

    ghost Value = { List ℕ };

    ghost view = { λ n. n.bytes.items };
}

impl Name {
    ghost use Rattle.std.specs.Borrow.{Lends, sem};
    ghost use Rattle.sig_base.specs.contracts.name.Name.{the_row};
    ghost use Rattle.sig_base.specs.Rows.{bytes_row};

    /// The name of the bytes.
    pub fn from_vec(bytes: Vec<u8>) -> Name
        ensures { result ≡ bytes.items }
    {
        Name { bytes }
    }

    /// The bytes in order.
    pub fn as_slice(&self) -> &[u8]
        ensures { result.now ≡ self.now }
    {
        self.bytes.as_slice()
    }

    /// The `Vec` of the bytes, lent for writing.
    pub fn as_mut_vec(&mut self) -> &mut Vec<u8>
        ensures* writes_back { sem 𝓛 (Lends the_row bytes_row self.entry result (λ v. v.items)) }
        ensures shows { result.now.items ≡ self.old }
    {
        &mut self.bytes
    }
}
