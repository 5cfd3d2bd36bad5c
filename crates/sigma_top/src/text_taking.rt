//! The text of a job, from the input.

ghost use Rattle.sigma_top.specs.Inner.CallSteps.{TakesText};

use answer_delivery::Failure;
use sig_base::{Source, TakeError, Text, take_all};
use std::alloc::Global;

/// The text of a job, or that the input has more bytes than the limit.
#[derive(Drop)]
pub enum TakenText {
    Whole(Text),
    TooLong,
}

/// The text of a job: all of the input, up to the limit, and no bytes for a job that reads none.
pub fn take_text<S: Source>(
    alloc: Global,
    limit: Option<usize>,
    input: &mut S,
) -> Result<TakenText, Failure>
    ensures { TakesText S.seen limit result input.old input.new }
{
    let Some(limit) = limit else {
        return Ok(TakenText::Whole(Text::from_vec(Vec::new(alloc))));
    };
    match take_all(alloc, input, limit) {
        Ok(text) => Ok(TakenText::Whole(text)),
        Err(TakeError::TooLong) => Ok(TakenText::TooLong),
        Err(TakeError::ReadFault) => Err(Failure::ReadFault),
        Err(TakeError::NoMemory) => Err(Failure::NoMemory),
    }
}
