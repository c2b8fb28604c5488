ghost use Rattle.std.specs.Prelude.{◌≡◌};
ghost use Rattle.knxsec_app.specs.Status.{number_of};

/// How a command ended.
#[derive(Clone, Copy, Debug, PartialEq, Eq)]
pub enum Status {
    /// Everything was done and the whole report was written.
    Done,
    /// The same, and the report has an alarm.
    Alarm,
    /// The words are of no form: the usage line was written.
    Usage,
    /// A file is not in its grammar or passes a limit: what was reported before it and its refusal were written.
    Refused,
    /// A file could not be read.
    ReadFault,
    /// The report could not be written.
    WriteFault,
    /// There was no memory.
    NoMemory,
}

impl Status {
    /// The status with which the process ends.
    pub fn number(self) -> u8
        ensures number { result ≡ number_of self }
    {
        match self {
            Status::Done => 0,
            Status::Alarm => 1,
            Status::Usage => 2,
            Status::Refused => 3,
            Status::ReadFault => 4,
            Status::WriteFault => 5,
            Status::NoMemory => 6,
        }
    }
}
