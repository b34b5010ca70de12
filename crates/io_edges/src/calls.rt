//! The calls that a form in memory is told to fail.

ghost use Rattle.std.specs.Prelude.{◌≡◌};
ghost use Rattle.io_edges.specs.Counts.{risen, is_listed};

use crate::counts::raise;
use dns_data::List;

/// The numbers of the calls that fail, the first call being 1, and how many calls there were.
#[derive(Debug, Drop)]
pub(crate) struct Calls {
    fails: List<u32>,
    made: u64,
}

impl Calls {
    /// No call so far.
    pub(crate) fn new(fails: List<u32>) -> Calls
        ensures { result ≡ record { fails = fails; made = 0 } }
    {
        Calls { fails, made: 0 }
    }

    /// Counts one call more, and answers whether its number is listed.
    pub(crate) fn count(&mut self) -> bool
        ensures listed { result ≡ is_listed self.old.fails (risen self.old.made) }
        ensures counted { self.new ≡ record self.old { made = risen self.old.made } }
    {
        self.made = raise(self.made);
        let made = self.made;
        self.fails
            .items()
            .iter()
            .any(|&call| u64::from(call) == made)
    }
}
