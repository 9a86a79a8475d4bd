// What is wrong with a record's frame, and where.
ghost use Rattle.std.specs.Prelude.{◌≡◌, Some};
ghost use Rattle.record.specs.Values.{values_at, values_of};
ghost use Rattle.record.specs.Words.{leader_words, words_of};

use std::error::Error;
use std::fmt;

// A rule of the frame that a record breaks. Each case has its six values by `values_of` of specs/Values.antt.
#[derive(Clone, Copy, Debug, PartialEq, Eq)]
pub enum FrameFault {
    // 18: the record's length is outside 26 to 99,999
    Length,
    // 19: a leader figure or code character
    Leader { place: usize },
    // 20: a directory entry
    Entry { place: usize },
    // 20: the byte that ends the directory, or the sum of the lengths
    DirectoryEnd { place: usize },
    // 21: a byte of a field
    Field { place: usize },
    // 22: the last byte of the record
    RecordEnd { place: usize },
}

// The layer that refuses.
#[derive(Clone, Copy, Debug, PartialEq, Eq)]
pub enum Layer {
    Frame,
    Format,
    Job,
}

// The six values that a refusal carries, 0 where one is not used.
#[derive(Clone, Copy, Debug, PartialEq, Eq)]
pub struct Values {
    pub number: u8,
    pub layer: Layer,
    pub place: usize,
    pub tag: u16,
    pub indicator: u8,
    pub code: u8,
}

// What refuses a record: it is told by six values, and printed in words.
pub trait Refusal: Error {
    ghost use Rattle.record.specs.declared.faults.Values.{Values};

    // The six values that it carries.
    ghost meaning: { Self → Values };

    // Those values.
    fn values(&self) -> Values
        ensures { result ≡ meaning self.now };
}

impl Values {
    // The values of a refusal that has a number and a place, and no tag, indicator or code.
    pub fn at(layer: Layer, number: u8, place: usize) -> Values
        ensures { result ≡ values_at layer number place }
    {
        Values {
            number,
            layer,
            place,
            tag: 0,
            indicator: 0,
            code: 0,
        }
    }
}

impl Refusal for FrameFault {
    ghost meaning = { values_of };

    fn values(&self) -> Values {
        match *self {
            FrameFault::Length => Values::at(Layer::Frame, 18, 0),
            FrameFault::Leader { place } => Values::at(Layer::Frame, 19, place),
            FrameFault::Entry { place } => Values::at(Layer::Frame, 20, place),
            FrameFault::DirectoryEnd { place } => Values::at(Layer::Frame, 20, place),
            FrameFault::Field { place } => Values::at(Layer::Frame, 21, place),
            FrameFault::RecordEnd { place } => Values::at(Layer::Frame, 22, place),
        }
    }
}

impl fmt::Display for FrameFault {
    ghost output = { λ f. Some (words_of f) };

    fn fmt<W: fmt::Write>(&self, f: &mut fmt::Formatter<W>) -> fmt::Result {
        f.write_str(self.words())
    }
}

impl Error for FrameFault {}

impl FrameFault {
    // What it means.
    fn words(&self) -> &'static str
        ensures { result.now ≡ words_of self.now }
    {
        match *self {
            FrameFault::Length => "the record is not 26 to 99,999 bytes long",
            FrameFault::Leader { place } => leader_words(place),
            FrameFault::Entry { .. } =>
                "a directory entry is not twelve digits: a tag from 001 on, a length from 0001 on, and the sum of the lengths before it",
            FrameFault::DirectoryEnd { .. } =>
                "the directory does not end with 1E, or the lengths do not add up to the bytes of the fields",
            FrameFault::Field { .. } => "a byte of a field breaks the rule for its place",
            FrameFault::RecordEnd { .. } => "the last byte is not 1D",
        }
    }
}

// What a fault at this position of the leader means.
fn leader_words(position: usize) -> &'static str
    ensures { result.now ≡ leader_words position }
{
    match position {
        0 => "the record length is not five digits that tell the record's length",
        10 => "the number of indicators is not 2",
        11 => "the length of a subfield code is not 2",
        12 => "the base is not five digits, not 25 and 12 for each entry, or past the last byte",
        20 => "the widths of what an entry has are not 4500",
        _ => "a leader code is not a blank, a digit or a small letter",
    }
}
