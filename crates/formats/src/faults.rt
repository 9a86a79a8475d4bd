// Why a format does not accept a record.
ghost use Rattle.std.specs.Prelude.{◌≡◌, Some};
ghost use Rattle.formats.specs.Values.{values_of};
ghost use Rattle.formats.specs.Words.{words_of};
ghost use Rattle.formats.specs.declared.faults.FormatFault.TheVariants.{Frame as Framed};

use record::faults::{FrameFault, Layer, Refusal, Values};
use std::error::Error;
use std::fmt;

// A rule that a record breaks. Each case has its six values by `values_of` of specs/Values.antt.
#[derive(Clone, Copy, Debug, PartialEq, Eq)]
pub enum FormatFault {
    // 18 to 22: a fault of the frame, whole
    Frame(FrameFault),
    // 23: a leader code that is not admitted at its position
    LeaderCode {
        position: usize,
        code: u8,
    },
    // 24: a tag that the format lacks
    Tag {
        place: usize,
        tag: u16,
    },
    // 25: an indicator that is not admitted
    Indicator {
        place: usize,
        tag: u16,
        indicator: u8,
        code: u8,
    },
    // 26: a subfield code that the tag lacks
    Subfield {
        place: usize,
        tag: u16,
        code: u8,
    },
    // 27: a second subfield of a code allowed once
    RepeatedSubfield {
        place: usize,
        tag: u16,
        code: u8,
    },
    // 28: a second field of a tag allowed once
    RepeatedField {
        place: usize,
        tag: u16,
    },
}

impl From<FrameFault> for FormatFault {
    ghost from_gives = { λ f r. r ≡ Framed f };

    fn from(fault: FrameFault) -> FormatFault
        ensures { result ≡ FormatFault.Frame fault }
    {
        Self::Frame(fault)
    }
}

impl Refusal for FormatFault {
    ghost meaning = { values_of };

    fn values(&self) -> Values {
        match *self {
            Self::Frame(fault) => fault.values(),
            Self::LeaderCode { position, code } => Values {
                code,
                ..Values::at(Layer::Format, 23, position)
            },
            Self::Tag { place, tag } => Values {
                tag,
                ..Values::at(Layer::Format, 24, place)
            },
            Self::Indicator {
                place,
                tag,
                indicator,
                code,
            } => Values {
                tag,
                indicator,
                code,
                ..Values::at(Layer::Format, 25, place)
            },
            Self::Subfield { place, tag, code } => Values {
                tag,
                code,
                ..Values::at(Layer::Format, 26, place)
            },
            Self::RepeatedSubfield { place, tag, code } => Values {
                tag,
                code,
                ..Values::at(Layer::Format, 27, place)
            },
            Self::RepeatedField { place, tag } => Values {
                tag,
                ..Values::at(Layer::Format, 28, place)
            },
        }
    }
}

impl fmt::Display for FormatFault {
    ghost output = { λ f. Some (words_of f) };

    fn fmt<W: fmt::Write>(&self, f: &mut fmt::Formatter<W>) -> fmt::Result {
        match self {
            Self::Frame(fault) => fault.fmt(f),
            Self::LeaderCode { .. } => f.write_str("a leader code is not admitted at its position"),
            Self::Tag { .. } => f.write_str("the format lacks the tag"),
            Self::Indicator { .. } => f.write_str("an indicator is not admitted"),
            Self::Subfield { .. } => f.write_str("the tag lacks the subfield code"),
            Self::RepeatedSubfield { .. } => f.write_str(
                "a second subfield has a code that is allowed once",
            ),
            Self::RepeatedField { .. } => f.write_str(
                "a second field has a tag that is allowed once",
            ),
        }
    }
}

impl Error for FormatFault {}
