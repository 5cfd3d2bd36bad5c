//! Two lines, one of each of two models.

use sig_base::Text;

/// A line of the first model, and one of the second. Each has its line feed.
#[derive(Drop)]
pub struct LinePair {
    pub first: Text,
    pub second: Text,
}
