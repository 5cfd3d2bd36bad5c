//! Values of expressions, stores and changes: the arithmetic of each event of a run.
#![tactic(auto)]

mod arithmetic;
mod changes;
mod evaluation;
mod lists;
mod place;
mod state;
mod storing;

pub use changes::{apply, pick};
pub use evaluation::value;
pub use lists::put_values;
pub use state::{State, cells_declared};
pub use storing::store;
