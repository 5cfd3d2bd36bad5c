//! Bytes that contracts see as a plain list of numbers.

ghost use Rattle.std.specs.Prelude.{◌≡◌};

use std::marker::Model;

/// Bytes that contracts see as a plain list of numbers.
#[derive(Drop)]
pub struct Text {
    bytes: Vec<u8>,
}

impl Model for Text {
    ghost use Rattle.std.specs.Prelude.{List, ℕ};

    ghost Value = { List ℕ };

    ghost view = { λ t. t.bytes.items };
}

impl Text {
    ghost use Rattle.std.specs.Borrow.{Lends, sem};
    ghost use Rattle.sig_base.specs.contracts.text.Text.{the_row};
    ghost use Rattle.sig_base.specs.Rows.{bytes_row};

    /// The text of the bytes.
    pub fn from_vec(bytes: Vec<u8>) -> Text
        ensures { result ≡ bytes.items }
    {
        Text { bytes }
    }

    /// The bytes in order.
    pub fn as_slice(&self) -> &[u8]
        ensures { result.now ≡ self.now }
    {
        self.bytes.as_slice()
    }

    /// The `Vec` of the bytes, lent for writing.
    pub fn as_mut_vec(&mut self) -> &mut Vec<u8>
        ensures* writes_back { sem 𝓛 (Lends the_row bytes_row self.entry result (λ v. v.items)) }
        ensures shows { result.now.items ≡ self.old }
    {
        &mut self.bytes
    }
}
