//! How a call may end: the forms of an answer, what there is to complain of, statuses, and how an answer gets to the output.
//! Nothing here knows which job is done.
#![tactic(auto)]

mod answer;
mod complaint;
mod delivering;
mod status;

pub use answer::{Answer, complaint_answer, too_long_answer};
pub use complaint::Complaint;
pub use delivering::{DeliveryOutcome, close, deliver, write_all};
pub use status::{End, Failure, Refusal, Status};
