//! How the program ends: statuses, ends of jobs, refusals and failures.

ghost use Rattle.std.specs.Prelude.{◌≡◌};
ghost use Rattle.answer_delivery.specs.declared.status.Failure.TheVariants.{NoMemory as OutOfMemory};
ghost use Rattle.answer_delivery.specs.Statuses.{exit_status_of, status_of_end, status_of_refusal, failure_line};
ghost use Rattle.answer_delivery.specs.FailureStatus.{status_of_failure};

use sig_base::NoMemory;

/// How a call of the program ended.
#[derive(Clone, Copy, Debug, PartialEq, Eq)]
pub enum Status {
    /// The job is done: the input was read to its end, and everything was written and finished.
    Done,
    /// The text is too long, or reads as no model, or for `certify`, `compare` and `resume` as no document.
    Refused,
    /// The words are no job.
    Usage,
    /// A read of the input failed.
    ReadFault,
    /// A write of the output failed.
    WriteFault,
    /// Memory was refused.
    NoMemory,
    /// The run was written up to an event that can't be completed.
    ModelFault,
    /// The run was written up to its event budget, and goes on.
    Budget,
    /// The certificate doesn't hold, and why is written.
    Rejected,
    /// The starting values of the run aren't those of the model's first vertex, or a saved run can't go on as it is asked to.
    BadStart,
    /// The run doesn't go on after so many events, so that there is nothing to save.
    Finished,
    /// What is saved of the run, with its model, is longer than a document may be.
    TooLarge,
    /// The two models don't mean the same, and what shows it is written.
    Differs,
    /// Whether the two models mean the same isn't known, and this is written.
    Unknown,
}

impl Status {
    /// The exit status of the program.
    pub fn number(&self) -> u8
        ensures { result ≡ exit_status_of self.now }
    {
        match self {
            Status::Done => 0,
            Status::Refused => 1,
            Status::Usage => 2,
            Status::ReadFault => 3,
            Status::WriteFault => 4,
            Status::NoMemory => 5,
            Status::ModelFault => 6,
            Status::Budget => 7,
            Status::Rejected => 8,
            Status::BadStart => 9,
            Status::Finished => 10,
            Status::TooLarge => 11,
            Status::Differs => 12,
            Status::Unknown => 13,
        }
    }
}

/// How a job ends that writes its answer.
#[derive(Clone, Copy, Debug, PartialEq, Eq)]
pub enum End {
    /// It is done.
    Done,
    /// The run faulted.
    ModelFault,
    /// The run goes on after its last event.
    Budget,
    /// The certificate doesn't hold.
    Rejected,
    /// The two models don't mean the same.
    Differs,
    /// Whether they do isn't known.
    Unknown,
}

impl End {
    /// Its status.
    pub fn status(self) -> Status
        ensures { result ≡ status_of_end self }
    {
        match self {
            End::Done => Status::Done,
            End::ModelFault => Status::ModelFault,
            End::Budget => Status::Budget,
            End::Rejected => Status::Rejected,
            End::Differs => Status::Differs,
            End::Unknown => Status::Unknown,
        }
    }
}

/// Why a job writes nothing.
#[derive(Clone, Copy, Debug, PartialEq, Eq)]
pub enum Refusal {
    /// The text is too long, or reads as no model, or for `certify`, `compare` and `resume` as no document.
    Refused,
    /// The starting values of the run aren't allowed, or a saved run can't go on as it is asked to.
    BadStart,
    /// The run doesn't go on.
    Finished,
    /// What is saved of the run is too long.
    TooLarge,
}

impl Refusal {
    /// Its status.
    pub fn status(self) -> Status
        ensures { result ≡ status_of_refusal self }
    {
        match self {
            Refusal::Refused => Status::Refused,
            Refusal::BadStart => Status::BadStart,
            Refusal::Finished => Status::Finished,
            Refusal::TooLarge => Status::TooLarge,
        }
    }
}

/// Why there is no answer.
#[derive(Clone, Copy, Debug, PartialEq, Eq)]
pub enum Failure {
    /// The words are no job.
    Usage,
    /// A read of the input failed.
    ReadFault,
    /// A write of the output failed.
    WriteFault,
    /// Memory was refused.
    NoMemory,
}

impl From<NoMemory> for Failure {
    ghost from_gives = { λ _ e. e ≡ OutOfMemory };

    fn from(_error: NoMemory) -> Failure {
        Failure::NoMemory
    }
}

impl Failure {
    /// Its status.
    pub fn status(self) -> Status
        ensures { result ≡ status_of_failure self }
    {
        match self {
            Failure::Usage => Status::Usage,
            Failure::ReadFault => Status::ReadFault,
            Failure::WriteFault => Status::WriteFault,
            Failure::NoMemory => Status::NoMemory,
        }
    }

    /// Its line on the error output.
    pub fn line(self) -> &'static [u8]
        ensures { result.now ≡ failure_line self }
    {
        match self {
            Failure::Usage => b"sigma: bad command line\n",
            Failure::ReadFault => b"sigma: cannot read\n",
            Failure::WriteFault => b"sigma: cannot write\n",
            Failure::NoMemory => b"sigma: out of memory\n",
        }
    }
}
