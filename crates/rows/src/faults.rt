// What is wrong with the rows of a format, and where.
ghost use Rattle.std.specs.Prelude.{◌≡◌, Some};
ghost use Rattle.rows.specs.Values.{values_of};
ghost use Rattle.rows.specs.Words.{words_of};

use record::faults::{Layer, Refusal, Values};
use std::error::Error;
use std::fmt;

// A rule that rows break. Each case has its six values by `values_of` of specs/Values.antt.
#[derive(Clone, Copy, PartialEq, Eq, Debug)]
pub enum RowFault {
    // 7: a tag outside 1 to 999, or not above the one before
    Tag { row: usize },
    // 8: a row that marks its tag absent or has a wrong character, a data tag without a code at an indicator, a control tag with one
    Row { row: usize },
    // 9: a leader set that is empty or has a wrong character
    Leader { position: usize },
}

impl Refusal for RowFault {
    ghost meaning = { values_of };

    fn values(&self) -> Values {
        match *self {
            RowFault::Tag { row } => Values::at(Layer::Format, 7, row),
            RowFault::Row { row } => Values::at(Layer::Format, 8, row),
            RowFault::Leader { position } => Values::at(Layer::Format, 9, position),
        }
    }
}

impl fmt::Display for RowFault {
    ghost output = { λ f. Some (words_of f) };

    fn fmt<W: fmt::Write>(&self, f: &mut fmt::Formatter<W>) -> fmt::Result {
        f.write_str(self.words())
    }
}

impl Error for RowFault {}

impl RowFault {
    // What it means.
    fn words(&self) -> &'static str
        ensures { result.now ≡ words_of self.now }
    {
        match *self {
            RowFault::Tag { .. } => "the tag is outside 1 to 999, or not above the one before",
            RowFault::Row { .. } =>
                "the row marks its tag absent, has a wrong character, or lacks a code at an indicator of a data tag; or it has one at a control tag",
            RowFault::Leader { .. } =>
                "the set of a leader position is empty or has a wrong character",
        }
    }
}
