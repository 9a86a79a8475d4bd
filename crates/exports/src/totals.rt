// How many records were checked, and how many of them are good.
ghost use Rattle.std.specs.Prelude.{◌≡◌};
ghost use Rattle.exports.specs.Totals.{counted, none, records_of};

use record::faults::FrameFault;
use record::frame::Frame;

// The records that passed, those that did not, and the bytes of both. A count that is full stays at its largest value.
#[derive(Clone, Copy, Debug, Default, PartialEq, Eq)]
pub struct Totals {
    pub good: u64,
    pub bad: u64,
    pub bytes: u64,
}

impl Totals {
    pub fn new() -> Totals
        ensures { result ≡ none }
    {
        Totals::default()
    }

    // Counts a record of so many bytes by the answer of its check.
    pub fn count(&mut self, size: usize, answer: Result<Frame, FrameFault>)
        ensures { self.new ≡ counted self.old size answer }
    {
        match answer {
            Ok(_) => self.good = self.good.saturating_add(1),
            Err(_) => self.bad = self.bad.saturating_add(1),
        }
        self.bytes = self.bytes.saturating_add(size as u64);
    }

    pub fn records(&self) -> u64
        ensures { result ≡ records_of self.now }
    {
        self.good.saturating_add(self.bad)
    }
}
