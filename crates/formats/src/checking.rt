// The check of a record in a format.
ghost use Rattle.std.specs.Prelude.{◌≡◌, ◌<◌};
ghost use Rattle.std.specs.List.{All};
ghost use Rattle.record.specs.Cursors.{fields_left};
ghost use Rattle.record.specs.Rules.{Verdict, verdict};
ghost use Rattle.record.specs.Trips.{Reads};
ghost use Rattle.formats.specs.Accepts.{format_faults, parts_faults};

use crate::faults::FormatFault;
use crate::format::Format;
use record::fields::Fields;
use record::reading::{Record, read};

// What is checked in a format: the leader codes and the fields of a record that was read.
#[derive(Drop)]
pub(crate) struct RecordCheck<'a, F: Format> {
    pub(crate) format: &'a F,
    pub(crate) codes: [u8; 8],
    pub(crate) fields: Fields<'a>,
    ghost small: { All (λ f. f.place < 100000) (fields_left fields) },
}

// The record where the format accepts it; or its first fault, by number and then by place.
pub fn check<'a, F: Format>(format: &F, record: &'a [u8]) -> Result<Record<'a>, FormatFault>
    ensures { Verdict (format_faults (F.Format.meaning format.now) «record».now) (Reads «record».now) result }
{
    let parts = read(record)?;
    let record_check = RecordCheck {
        format,
        codes: parts.codes(),
        fields: parts.fields(),
    };
    record_check.run()?;
    Ok(parts)
}

impl<'a, F: Format> RecordCheck<'a, F> {
    // The first fault of the leader codes and the fields, or none.
    fn run(&self) -> Result<(), FormatFault>
        ensures { result ≡ verdict (parts_faults (F.Format.meaning self.now.format.now) self.now.codes (fields_left self.now.fields)) tt }
    {
        self.check_leader()?;
        self.check_tags()?;
        self.check_indicators()?;
        self.check_subfields()?;
        self.check_repeated_subfields()?;
        self.check_repeated_fields()
    }
}
