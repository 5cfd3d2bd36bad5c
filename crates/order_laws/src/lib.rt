//! The law of due order: what can be seen of the order in which events were scheduled. The function has an empty body: what it
//! ensures holds of all runs.
#![tactic(auto)]

mod due_order;

pub use due_order::due_order_decides;
