//! The pens, which take a text as it is made: onto a page with room for it, after other bytes, or into a count of its bytes
//! alone.

ghost use Rattle.std.specs.Prelude.{◌≡◌, ◌≤◌, ◌-◌, ◌^◌, ℕ, min, List, [], ◌++◌, codes, decimal, vec_capacity, IfOk};
ghost use Rattle.std.specs.Fmt.{signed_decimal};

use itoa::Buffer;
use sig_base::NoMemory;
use std::alloc::Global;

/// What takes a text piece by piece.
pub trait Pen {
    // The second is what the first becomes where the text is put.
    ghost adds: { Self → Self → List ℕ → Type 0 };

    /// Puts bytes after those before.
    fn put_bytes(&mut self, bytes: &[u8])
        ensures { adds self.old self.new bytes.now };

    // No text changes nothing, and two texts are put one after the other.
    ghost nothing: { (s : Self) → adds s s [] };

    ghost both: { (s t u : Self) (a b : List ℕ) → adds s t a → adds t u b → adds s u (a ++ b) };
}

/// How many bytes were put, or the last count where they are more.
#[derive(Clone, Copy)]
pub struct Count {
    pub bytes: u64,
}

impl Count {
    /// How many bytes were put.
    pub fn total(self) -> u64
        ensures { result ≡ min self.bytes (2 ^ 64 - 1) }
    {
        self.bytes
    }
}

impl Pen for Count {
    ghost use Rattle.model_print.specs.Inner.Pens.{Counts, counts_nothing, counts_both};

    ghost adds = { λ s t text. Counts s.bytes t.bytes text };

    ghost nothing = { λ s. counts_nothing s.bytes };

    ghost both = { λ s t u a b. counts_both s.bytes t.bytes u.bytes a b };

    fn put_bytes(&mut self, bytes: &[u8]) {
        self.bytes = self.bytes.saturating_add(bytes.len() as u64);
    }
}

/// A page of memory. What it has no room for isn't put.
#[derive(Drop)]
pub struct Page {
    pub bytes: Vec<u8>,
}

impl Page {
    /// An empty page with room for so many bytes.
    pub fn with_room(alloc: Global, room: usize) -> Result<Page, NoMemory>
        ensures empty { IfOk result (λ page. page.bytes.items ≡ []) }
        ensures room { IfOk result (λ page. room ≤ vec_capacity page.bytes) }
    {
        Ok(Page {
            bytes: Vec::with_capacity(alloc, room)?,
        })
    }
}

impl Pen for Page {
    ghost use Rattle.std.specs.Prelude.{vec_capacity};
    ghost use Rattle.model_print.specs.Inner.Pens.{Fills, fills_nothing, fills_both};

    ghost adds = { λ s t text. Fills s.bytes.items (vec_capacity s.bytes) t.bytes.items
        (vec_capacity t.bytes) text };

    ghost nothing = { λ s. fills_nothing s.bytes.items (vec_capacity s.bytes) };

    ghost both = { λ s t u a b. fills_both s.bytes.items (vec_capacity s.bytes) t.bytes.items
        (vec_capacity t.bytes) u.bytes.items (vec_capacity u.bytes) a b };

    fn put_bytes(&mut self, bytes: &[u8]) {
        if bytes.len() <= self.bytes.capacity() - self.bytes.len() {
            self.bytes.extend_from_slice(bytes).unwrap();
        }
    }
}

/// A text that grows. Once memory was refused nothing more is put.
#[derive(Drop)]
pub struct Growing {
    pub bytes: Vec<u8>,
    pub lacks_memory: bool,
}

impl Pen for Growing {
    ghost use Rattle.model_print.specs.Inner.Pens.{Grows, grows_nothing, grows_both};

    ghost adds = { λ s t text. Grows s.bytes.items s.lacks_memory t.bytes.items
        t.lacks_memory text };

    ghost nothing = { λ s. grows_nothing s.bytes.items s.lacks_memory };

    ghost both = { λ s t u a b. grows_both s.bytes.items s.lacks_memory t.bytes.items
        t.lacks_memory u.bytes.items u.lacks_memory a b };

    fn put_bytes(&mut self, bytes: &[u8]) {
        if !self.lacks_memory {
            self.lacks_memory = self.bytes.extend_from_slice(bytes).is_err();
        }
    }
}

/// Puts a comma and a space.
pub(crate) fn put_comma<P: Pen>(out: &mut P)
    ensures { P.adds out.old out.new (codes ", ") }
{
    out.put_bytes(b", ");
}

/// Puts a number in decimal, without leading zeros.
pub(crate) fn put_number<P: Pen>(out: &mut P, number: u64)
    ensures { P.adds out.old out.new (decimal number) }
{
    let mut buffer = Buffer::new();
    out.put_bytes(buffer.format(number).as_bytes());
}

/// Puts a number in decimal, with a `-` where it is below 0.
pub(crate) fn put_signed<P: Pen>(out: &mut P, number: i64)
    ensures { P.adds out.old out.new (signed_decimal number) }
{
    let mut buffer = Buffer::new();
    out.put_bytes(buffer.format(number).as_bytes());
}
