//! How a run ends.

ghost use Rattle.std.specs.Prelude.{◌≡◌};

use dns_data::Text;

/// How a run ends.
#[derive(Debug, Drop)]
pub enum Status {
    /// The output was written whole, and no fault was found or looked for.
    Clean,
    /// The output was written whole, and it tells of something that is amiss.
    Faults,
    /// The words ask for nothing that the program does.
    Usage,
    /// The metadata or a zone file is refused.
    Refused,
    /// The class tree has more names than the limit.
    Classes,
    /// A query reaches more pairs of state and type than the limit.
    States,
    /// A query has more walks than the limit.
    Walks,
    /// The file of this name could not be read.
    ReadFault(Text),
    /// The output could not be written.
    WriteFault,
    /// Memory ran out.
    NoMemory,
}

impl Status {
    ghost use Rattle.run_endings.specs.Endings.{status_number};

    /// The number with which the program ends: 0 and 1 for an output that was written whole, without and with a
    /// fault.
    pub fn number(&self) -> u8
        ensures { result ≡ status_number self.now }
    {
        match self {
            Status::Clean => 0,
            Status::Faults => 1,
            Status::Usage => 2,
            Status::Refused => 3,
            Status::Classes | Status::States | Status::Walks => 4,
            Status::ReadFault(_) => 5,
            Status::WriteFault => 6,
            Status::NoMemory => 7,
        }
    }
}
