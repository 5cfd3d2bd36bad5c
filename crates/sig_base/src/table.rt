//! Tables of weighted values, and the values that an event carries.

ghost use Rattle.std.specs.Prelude.{◌≡◌, ◌*◌, ◌/◌, ◌-◌, ◌<◌, ◌≤◌, ◌^◌, length, map, min, sum, slice_index_or, IfOk};
ghost use Rattle.std.specs.Int.{leading_zeros, w32};
ghost use Rattle.sig_base.specs.Stream.{share, weighted_pick};
ghost use Rattle.sig_base.specs.RunningSums.{running_sums, AtMostBefore, StartsAt};

use crate::limits::{PARAMETERS_MAX, WEIGHTS_MAX};
use crate::list::List;
use crate::name::Name;
use crate::no_memory::NoMemory;
use arrayvec::ArrayVec;
use std::alloc::Global;

/// The values that an event carries for its vertex's parameters.
pub type Carried = ArrayVec<i64, PARAMETERS_MAX>;

/// A value that a draw by table gives, and how often.
#[derive(Clone, Copy, Debug, PartialEq, Eq)]
pub struct Row {
    pub value: i64,
    /// The value's share of the sum of the table's weights: 1 to 2^32 in an accepted model.
    pub weight: u64,
}

/// A table of weighted values, from which a `draw` takes. A draw finds the row of a word in a step or two by what the table
/// keeps beside its rows: `total`, the sum of all weights; `sums`, for each row the sum of its weight and those before it; and
/// `starts`, for each part of 2^`shift` words a place before which no row of such a word can be. There are four to eight parts
/// for each row. `of_rows` builds the table.
#[derive(Drop)]
pub struct Table {
    pub name: Name,
    pub rows: List<Row>,
    total: u64,
    sums: List<u64>,
    shift: u32,
    starts: List<usize>,
    ghost totalled: { sum (map (λ r. r.weight) rows) ≤ 2 ^ 32 → total ≡ sum (map (λ r. r.weight) rows) },
    ghost summed: { sum (map (λ r. r.weight) rows) ≤ 2 ^ 32 → sums ≡ running_sums 0 (map (λ r. r.weight) rows) },
    ghost small: { total ≤ 2 ^ 32 },
    ghost shifted: { shift < 32 },
    ghost started: { StartsAt sums total shift starts },
}

/// The part of `count` that a word is of 2^32.
pub fn share_of(word: u32, count: u64) -> u64
    requires bound { count ≤ 2 ^ 32 }
    ensures value { result ≡ share word count }
    ensures less { result ≤ count }
{
    (u64::from(word) * count) >> 32
}

/// Of each row the sum of its weight and those before it, as far as 64 bits hold it.
fn sums_of(alloc: Global, rows: &[Row]) -> Result<List<u64>, NoMemory>
    ensures { IfOk result
        (λ sums. sum (map (λ r. r.weight) rows.now) ≤ 2 ^ 32
        → sums ≡ running_sums 0 (map (λ r. r.weight) rows.now)) }
{
    let mut sums = Vec::with_capacity(alloc, rows.len())?;
    let mut sum: u64 = 0;
    for row in rows {
        sum = sum.saturating_add(row.weight);
        sums.push(sum)?;
    }
    Ok(List::from_vec(sums))
}

/// The last sum, which is that of all weights, or the limit where it is above it.
fn total(sums: &[u64]) -> u64
    ensures value { result ≡ min (slice_index_or sums.now (length sums.now - 1) 0) (2 ^ 32) }
    ensures small { result ≤ 2 ^ 32 }
{
    if sums.len() == 0 {
        return 0;
    }
    sums[sums.len() - 1].min(WEIGHTS_MAX)
}

/// The place of the first sum above `x`, or their end, from a place on before which all are at most `x`.
fn place_from(sums: &[u64], x: u64, from: usize) -> usize
    requires { AtMostBefore sums.now x from }
    ensures before { AtMostBefore sums.now x result }
    ensures above { result < length sums.now → x < slice_index_or sums.now result 0 }
{
    for place in from..sums.len() {
        if x < sums[place] {
            return place;
        }
    }
    sums.len()
}

/// Where a search for a word begins.
fn start_for(starts: &[usize], shift: u32, word: u32) -> usize
    requires { shift < 32 }
    ensures { result ≡ slice_index_or starts.now (word / 2 ^ shift) 0 }
{
    let part = (word >> shift) as usize;
    if part < starts.len() { starts[part] } else { 0 }
}

/// How many bits of a word the number of its part leaves out. So there are four to eight parts for each row, and at most
/// 65,536.
fn shift_for(rows: usize) -> u32
    ensures below { result < 32 }
    ensures number { result ≡ leading_zeros w32 (min rows 16383) - 2 }
{
    (rows.min(16_383) as u32).leading_zeros().saturating_sub(2)
}

/// Of each part of the words the place of the first sum above the share of its first word.
fn starts_of(alloc: Global, sums: &[u64], total: u64, shift: u32) -> Result<List<usize>, NoMemory>
    requires shifted { shift < 32 }
    requires small { total ≤ 2 ^ 32 }
    ensures { IfOk result (λ starts. StartsAt sums.now total shift starts) }
{
    let mut starts = Vec::with_capacity(alloc, (u32::MAX >> shift) as usize + 1)?;
    let mut place = 0;
    for part in 0..=u32::MAX >> shift {
        let x = share_of(part << shift, total);
        place = place_from(sums, x, place);
        starts.push(place)?;
    }
    Ok(List::from_vec(starts))
}

impl Table {
    /// The table of this name with these rows.
    pub fn of_rows(alloc: Global, name: Name, rows: List<Row>) -> Result<Table, NoMemory>
        ensures named { IfOk result (λ table. table.name ≡ name) }
        ensures holds { IfOk result (λ table. table.rows ≡ rows) }
    {
        let sums = sums_of(alloc, rows.as_slice())?;
        let total = total(sums.as_slice());
        let shift = shift_for(sums.len());
        let starts = starts_of(alloc, sums.as_slice(), total, shift)?;
        Ok(Table {
            name,
            rows,
            total,
            sums,
            shift,
            starts,
        })
    }

    /// The place of the row that has this word in its share. Where the weights sum to more than 2^32 it may be any place.
    pub fn place(&self, word: u32) -> usize
        ensures { sum (map (λ r. r.weight) self.now.rows) ≤ 2 ^ 32
            → result ≡ weighted_pick (map (λ r. r.weight) self.now.rows) word }
    {
        let start = start_for(self.starts.as_slice(), self.shift, word);
        let x = share_of(word, self.total);
        place_from(self.sums.as_slice(), x, start)
    }
}
