//! One item of a report: a cell's values with their area, or how often an event occurred.

ghost use Rattle.std.specs.Prelude.{◌≡◌, ◌≤◌, ◌-◌, ℕ, pos, ◌+ℤ◌, ◌*ℤ◌};
ghost use Rattle.tally_report.specs.CellCourse.{widened};
ghost use Rattle.tally_report.specs.SmallAreas.{IsSmallArea, IsOfRuns};
ghost use Rattle.tally_report.specs.Inner.Sums.{IsSmall};
ghost use Rattle.tally_report.specs.Totalling.{spans_joined, item_added};
ghost use Rattle.tally_report.specs.Inner.Sums.{held_until, with_value, occurred_once};

/// The values of a cell in a run.
#[derive(Clone, Copy, Debug, PartialEq, Eq)]
pub struct Span {
    pub least: i64,
    pub greatest: i64,
    pub last: i64,
}

/// The item of a watched cell or vertex.
#[derive(Clone, Copy, Debug, PartialEq, Eq)]
pub enum Item {
    /// A cell: its values, `None` where none was noted, and the sum of value times duration in ticks.
    Cell { span: Option<Span>, area: i128 },
    /// A vertex: how often its event occurred.
    Count { occurrences: u64 },
}

/// The area of a value that holds so many ticks.
fn area_of(value: i64, ticks: u64) -> i128
    ensures product { result ≡ value *ℤ pos ticks }
    ensures small { IsSmallArea ticks result }
{
    value as i128 * ticks as i128
}

/// An area where a value holds on from one time to a later one.
fn held_longer(area: i128, value: i64, since: u64, time: u64) -> i128
    requires later { since ≤ time }
    requires small { IsSmallArea since area }
    ensures held { result ≡ area +ℤ value *ℤ pos (time - since) }
    ensures small { IsSmallArea time result }
{
    area + area_of(value, time - since)
}

impl Span {
    /// The values with one more, which is the last.
    fn widened(self, value: i64) -> Span
        ensures { result ≡ widened self value }
    {
        Span {
            least: self.least.min(value),
            greatest: self.greatest.max(value),
            last: value,
        }
    }
}

/// The values of both, where there are any.
fn spans_joined(span: Option<Span>, other: Option<Span>) -> Option<Span>
    ensures { result ≡ spans_joined span other }
{
    let Some(span) = span else {
        return other;
    };
    let Some(other) = other else {
        return Some(span);
    };
    Some(Span {
        least: span.least.min(other.least),
        greatest: span.greatest.max(other.greatest),
        last: other.last,
    })
}

impl Item {
    /// The item at a later time, where the last value was noted at the earlier one and holds on.
    pub(crate) fn held_until(self, since: u64, time: u64) -> Item
        requires later { since ≤ time }
        requires small { IsSmall since self }
        ensures held { result ≡ held_until since time self }
        ensures small { IsSmall time result }
    {
        match self {
            Item::Cell {
                span: Some(span),
                area,
            } => Item::Cell {
                span: Some(span),
                area: held_longer(area, span.last, since, time),
            },
            Item::Cell { span: None, area } => Item::Cell { span: None, area },
            Item::Count { occurrences } => Item::Count { occurrences },
        }
    }

    /// The item with a cell's next value.
    pub(crate) fn with_value(self, value: i64) -> Item
        ensures noted { result ≡ with_value value self }
        ensures small { (ticks : ℕ) → IsSmall ticks self → IsSmall ticks result }
    {
        match self {
            Item::Cell {
                span: Some(span),
                area,
            } => Item::Cell {
                span: Some(span.widened(value)),
                area,
            },
            Item::Cell { span: None, area } => Item::Cell {
                span: Some(Span {
                    least: value,
                    greatest: value,
                    last: value,
                }),
                area,
            },
            Item::Count { occurrences } => Item::Count { occurrences },
        }
    }

    /// The item with an event more, up to the last count.
    pub(crate) fn occurred_once(self) -> Item
        ensures counted { result ≡ occurred_once self }
        ensures small { (ticks : ℕ) → IsSmall ticks self → IsSmall ticks result }
    {
        match self {
            Item::Cell { span, area } => Item::Cell { span, area },
            Item::Count { occurrences } => Item::Count {
                occurrences: occurrences.saturating_add(1),
            },
        }
    }

    /// The item with the same one of a further run.
    pub(crate) fn plus(self, other: Item) -> Item
        requires below_limit { IsOfRuns 65535 self }
        requires one { IsOfRuns 1 other }
        ensures { result ≡ item_added self other }
    {
        match self {
            Item::Cell { span, area } => match other {
                Item::Cell {
                    span: other_span,
                    area: other_area,
                } => Item::Cell {
                    span: spans_joined(span, other_span),
                    area: area + other_area,
                },
                Item::Count { .. } => self,
            },
            Item::Count { occurrences } => match other {
                Item::Count {
                    occurrences: others,
                } => Item::Count {
                    occurrences: occurrences + others,
                },
                Item::Cell { .. } => self,
            },
        }
    }
}
