// Reading a record whose frame holds.
ghost use Rattle.std.specs.Prelude.{◌≡◌, ℕ, List};
ghost use Rattle.std.specs.Iterator.{AlwaysYields};
ghost use Rattle.record.specs.Cursors.{FieldStep, SubfieldStep, bytes_in, fields_in, fields_left, seen_field, seen_subfield, subfields_left};
ghost use Rattle.record.specs.Figures.{part};
ghost use Rattle.record.specs.Frame.{frame_faults};
ghost use Rattle.record.specs.Leader.{codes_of};
ghost use Rattle.record.specs.Reading.{bare, contents_of, parts_of};
ghost use Rattle.record.specs.Rules.{Verdict};
ghost use Rattle.record.specs.Trips.{Reads};
ghost use Rattle.record.specs.declared.subfields.Subfields.{Subfields};

use crate::faults::FrameFault;
use crate::fields::Fields;
use crate::frame::{Frame, check};
use crate::leader::{positions, told_base};
use crate::slices::{byte_at, part_of};

// A record whose frame was checked, over the caller's bytes.
#[derive(Clone, Copy)]
pub struct Record<'a> {
    bytes: &'a [u8],
    frame: Frame,
}

// The record, or the first fault of its frame.
pub fn read<'a>(record: &'a [u8]) -> Result<Record<'a>, FrameFault>
    ensures { Verdict (frame_faults «record».now) (Reads «record».now) result }
{
    let frame = check(record)?;
    Ok(Record {
        bytes: record,
        frame,
    })
}

impl<'a> Record<'a> {
    // The 24 bytes of the leader.
    pub fn leader(&self) -> &'a [u8]
        ensures { result.now ≡ part (bytes_in self.now) 0 24 }
    {
        part_of(self.bytes, 0, 24)
    }

    // The eight leader codes.
    pub fn codes(&self) -> [u8; 8]
        ensures { result ≡ codes_of (bytes_in self.now) }
    {
        positions().map(|position| byte_at(self.bytes, position))
    }

    // The fields in the order of their entries.
    pub fn fields(&self) -> Fields<'a>
        ensures left { fields_left result ≡ fields_in self.now }
        ensures fields { AlwaysYields FieldStep seen_field result (fields_in self.now) }
        ensures parts { (bs : List ℕ) → Reads bs self.now → AlwaysYields FieldStep (λ f. bare (seen_field f)) result (parts_of bs).fields }
        ensures subfields { (s : Subfields) → AlwaysYields SubfieldStep seen_subfield s (subfields_left s) }
    {
        Fields::new(self.bytes, self.frame.entries())
    }

    // The bytes of the fields, end to end.
    pub fn contents(&self) -> &'a [u8]
        ensures { result.now ≡ contents_of (bytes_in self.now) }
    {
        let base = told_base(self.bytes);
        let size = self.bytes.len().saturating_sub(base).saturating_sub(1);
        part_of(self.bytes, base, size)
    }
}

#[cfg(test)]
mod tests {
    use super::read;
    use crate::examples::record_a;
    use crate::faults::FrameFault;
    use crate::fields::{Content, Field};

    // Field `k` of a record.
    fn field(record: &[u8], k: usize) -> Option<Field<'_>> {
        read(record).ok()?.fields().nth(k)
    }

    // How many fields a record has.
    fn field_count(record: &[u8]) -> Option<usize> {
        Some(read(record).ok()?.fields().count())
    }

    // How many subfields field `k` has.
    fn subfield_count(record: &[u8], k: usize) -> Option<usize> {
        Some(field(record, k)?.subfields().count())
    }

    // Tag, entry, place and length of field `k`.
    fn numbers(record: &[u8], k: usize) -> Option<(u16, usize, usize, usize)> {
        let found = field(record, k)?;
        Some((found.tag, found.entry, found.place, found.size))
    }

    // Place, code and length of the data of subfield `j` of field `k`.
    fn marks(record: &[u8], k: usize, j: usize) -> Option<(usize, u8, usize)> {
        let found = field(record, k)?.subfields().nth(j)?;
        Some((found.place, found.code, found.body.len()))
    }

    // The bytes of a control field.
    fn control(record: &[u8], k: usize) -> Option<&[u8]> {
        match field(record, k)?.content {
            Content::Control(bytes) => Some(bytes),
            Content::Data { .. } => None,
        }
    }

    #[test]
    fn fields_of_record_a(rt: HostRuntime) {
        let a = record_a();
        assert_eq!(rt; numbers(a, 0), Some((185, 24, 37, 8)));
        assert_eq!(rt; marks(a, 0, 0), Some((39, b'j', 3)));
        assert_eq!(rt; marks(a, 0, 1), None);
        assert_eq!(rt; numbers(a, 1), None);
        assert_eq!(rt; field_count(a), Some(1));
        assert_eq!(rt; subfield_count(a, 0), Some(1));
    }

    // 001 `a1`, 003 with no byte but its 1E, and 245 `10` with an empty $a, $b xy and an empty $c.
    #[test]
    fn control_fields_and_empty_subfields(rt: HostRuntime) {
        let record =
            b"00077nam  2200061   4500001000300000003000100003245001100004\x1ea1\x1e\x1e10\x1fa\x1fbxy\x1fc\x1e\x1d";
        assert_eq!(rt; numbers(record, 0), Some((1, 24, 61, 3)));
        assert_eq!(rt; numbers(record, 1), Some((3, 36, 64, 1)));
        assert_eq!(rt; numbers(record, 2), Some((245, 48, 65, 11)));
        assert_eq!(rt; control(record, 0).map(|bytes| bytes.len()), Some(2));
        assert_eq!(rt;
            control(record, 0).and_then(|bytes| bytes.last().copied()),
            Some(b'1')
        );
        assert_eq!(rt; control(record, 1).map(|bytes| bytes.len()), Some(0));
        assert_eq!(rt; marks(record, 2, 0), Some((67, b'a', 0)));
        assert_eq!(rt; marks(record, 2, 1), Some((69, b'b', 2)));
        assert_eq!(rt; marks(record, 2, 2), Some((73, b'c', 0)));
        assert_eq!(rt; marks(record, 2, 3), None);
        assert_eq!(rt; field_count(record), Some(3));
        assert_eq!(rt; subfield_count(record, 0), Some(0));
        assert_eq!(rt; subfield_count(record, 2), Some(3));
    }

    #[test]
    fn a_record_that_breaks_its_frame(rt: HostRuntime) {
        let mut no_mark = *record_a();
        no_mark[39] = b'x';
        assert_eq!(rt; read(&no_mark).err(), Some(FrameFault::Field { place: 39 }));
    }
}
