//! Reading all that a source has, up to a limit.

ghost use Rattle.std.specs.Prelude.{◌≡◌, ◌≢◌, ◌<◌, ◌≤◌, ◌+◌, ◌^◌, ◌↔◌, ℕ, [], Some, length, take, drop, vec_len, IfSome, IfOk, OnOk, OnErr, IfErr, IsErrOf};
ghost use Rattle.sig_base.specs.Faults.{HasRisen};
ghost use Rattle.sig_base.specs.Source.{Stays, Takes, Shows, IsAtEnd};

use crate::no_memory::Failed;
use crate::source::Source;
use crate::take_error::TakeError;
use crate::text::Text;
use std::alloc::Global;

/// The bytes that the first read has room for.
const FIRST_ROOM: usize = 65_536;

/// The length of a full buffer after it has grown: twice as much, and one byte over the limit at
/// most.
fn grown_length(len: usize, limit: usize) -> usize
    requires small { len < 2 ^ 63 }
    requires within { len ≤ limit }
    ensures more { len < result }
    ensures within { result ≤ limit + 1 }
{
    let more = if len < FIRST_ROOM { FIRST_ROOM } else { len };
    let room = limit - len;
    if room < more {
        len + (room + 1)
    } else {
        len + more
    }
}

/// Makes room after the bytes that were read, where there is none.
fn make_room(bytes: &mut Vec<u8>, filled: usize, limit: usize) -> Result<(), TakeError>
    requires filled { filled ≤ vec_len bytes.old }
    requires within { filled ≤ limit }
    requires bounded { vec_len bytes.old ≤ limit + 1 }
    ensures room { OnOk result (filled < vec_len bytes.new) }
    ensures bounded { OnOk result (vec_len bytes.new ≤ limit + 1) }
    ensures kept { OnOk result (take filled bytes.new.items ≡ take filled bytes.old.items) }
    ensures err { IfErr result (λ error. error ≡ TakeError.NoMemory) }
{
    if filled == bytes.len() {
        bytes.resize(grown_length(filled, limit), 0)?;
    }
    Ok(())
}

/// One read into the room after the bytes that were read.
fn read_more<S: Source>(source: &mut S, bytes: &mut Vec<u8>, filled: usize) -> Result<usize, Failed>
    requires { filled < vec_len bytes.old }
    ensures len { vec_len bytes.new ≡ vec_len bytes.old }
    ensures kept { take filled bytes.new.items ≡ take filled bytes.old.items }
    ensures within { IfOk result (λ n. filled + n ≤ vec_len bytes.new) }
    ensures takes { IfOk result (λ n. Takes (S.seen source.old).left (S.seen source.new).left n) }
    ensures shows { IfOk result
        (λ n. Shows (S.seen source.old).left n (drop filled bytes.new.items)) }
    ensures end { IfOk result (λ n. n ≡ 0 → IsAtEnd (S.seen source.old).left) }
    ensures stays { OnErr result (Stays (S.seen source.old).left (S.seen source.new).left) }
    ensures steady { OnOk result ((S.seen source.new).faults ≡ (S.seen source.old).faults) }
    ensures failed { OnErr result (HasRisen (S.seen source.old).faults (S.seen source.new).faults) }
{
    source.read(&mut bytes[filled..])
}

/// Takes all that the source has left, up to the limit of bytes.
///
/// It reads at most one byte more than the limit, and answers `TooLong` where it has read that one.
/// Its buffer grows by doubling.
pub fn take_all<S: Source>(alloc: Global, source: &mut S, limit: usize) -> Result<Text, TakeError>
    ensures all { IfOk result (λ text. IfSome (S.seen source.old).left (λ bytes.
        (text ≡ bytes) × ((S.seen source.new).left ≡ Some []))) }
    ensures within { IfOk result (λ text. length text ≤ limit) }

    // One byte over the limit was read, and then nothing more.
    ensures too_long { IsErrOf result TakeError.TooLong → IfSome (S.seen source.old).left (λ bytes.
        (limit < length bytes) × ((S.seen source.new).left ≡ Some (drop (limit + 1) bytes))) }

    // After every answer some bytes were taken from the front, over the limit only at `TooLong`.
    ensures taken { (n : ℕ) × (n ≤ limit + 1)
        × Takes (S.seen source.old).left (S.seen source.new).left n
        × (IsErrOf result TakeError.TooLong ↔ (n ≡ limit + 1)) }

    ensures read_fault { IsErrOf result TakeError.ReadFault
        → HasRisen (S.seen source.old).faults (S.seen source.new).faults }
    ensures steady { result ≢ Err TakeError.ReadFault
        → (S.seen source.new).faults ≡ (S.seen source.old).faults }
{
    let mut bytes = Vec::new(alloc);
    let mut filled = 0;
    while filled <= limit {
        make_room(&mut bytes, filled, limit)?;
        let count = read_more(source, &mut bytes, filled)?;
        let is_end = count == 0;
        if is_end {
            bytes.truncate(filled);
            return Ok(Text::from_vec(bytes));
        }
        filled += count;
    }
    Err(TakeError::TooLong)
}
