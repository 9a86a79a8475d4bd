// Writing a record from its parts.
ghost use Rattle.std.specs.Prelude.{◌≡◌, true, length, take, IfOk, IfErr, Some};
ghost use Rattle.record.specs.Formed.{Formed};
ghost use Rattle.record.specs.Layout.{laid_from, layout};
ghost use Rattle.record.specs.Parts.{Parts};
ghost use Rattle.record.specs.Rules.{verdict};
ghost use Rattle.record.specs.Trips.{OfParts, ReadBack};
ghost use Rattle.record.specs.declared.writing.WriteFault.TheVariants.{Frame};
ghost use Rattle.record.specs.Writing.{left_by, room_for, write_faults, write_number, write_values, write_words};

use crate::faults::{FrameFault, Layer, Refusal, Values};
use crate::parts::RecordParts;
use std::error::Error;
use std::fmt;

// Why a record is not written.
#[derive(Clone, Copy, Debug, PartialEq, Eq)]
pub enum WriteFault {
    // 18 to 21: the parts make no record
    Frame(FrameFault),
    // 29: the buffer is shorter than the record
    ShortBuffer,
}

impl Refusal for WriteFault {
    ghost meaning = { write_values };

    fn values(&self) -> Values {
        match *self {
            WriteFault::Frame(fault) => fault.values(),
            WriteFault::ShortBuffer => Values::at(Layer::Job, 29, 0),
        }
    }
}

impl fmt::Display for WriteFault {
    ghost output = { λ f. Some (write_words f) };

    fn fmt<W: fmt::Write>(&self, f: &mut fmt::Formatter<W>) -> fmt::Result {
        match self {
            WriteFault::Frame(fault) => write!(f, "{fault}"),
            WriteFault::ShortBuffer => f.write_str("no room for a record"),
        }
    }
}

impl Error for WriteFault {}

impl From<FrameFault> for WriteFault {
    ghost from_gives = { λ f w. w ≡ Frame f };

    fn from(fault: FrameFault) -> WriteFault
        ensures { result ≡ WriteFault.Frame fault }
    {
        Self::Frame(fault)
    }
}

impl RecordParts<'_> {
    // Writes the record that the parts make, and tells its length.
    pub fn write(&self, out: &mut [u8]) -> Result<usize, WriteFault>
        ensures answer { result ≡ verdict (write_faults (laid_from self.now) out.old) (length (laid_from self.now)) }
        ensures buffer { out.new ≡ left_by result (laid_from self.now) out.old }
        ensures numbers { IfErr result (λ f. write_number (write_values f).number ≡ true) }
        ensures formed { (p : Parts) → Formed p → OfParts p self.now.codes self.now.extents.now self.now.fields.now → result ≡ room_for (layout p) out.old }
        ensures read_back { IfOk result (λ n. ReadBack self.now.codes self.now.extents.now self.now.fields.now (take n out.new)) }
    {
        let checked = self.check()?;
        let len = checked.len();
        if out.len() < len {
            return Err(WriteFault::ShortBuffer);
        }
        checked.put(&mut out[..len]);
        Ok(len)
    }
}

#[cfg(test)]
mod tests {
    use super::WriteFault;
    use crate::c_call::ibermarc21_frame_check;
    use crate::examples::record_a;
    use crate::extent::Extent;
    use crate::faults::FrameFault;
    use crate::parts::RecordParts;

    const CODES: [u8; 8] = *b"nz   n  ";

    fn refused(fault: FrameFault) -> Result<usize, WriteFault> {
        Err(WriteFault::Frame(fault))
    }

    fn write(
        codes: [u8; 8],
        extents: &[Extent],
        fields: &[u8],
        out: &mut [u8],
    ) -> Result<usize, WriteFault> {
        let parts = RecordParts {
            codes,
            extents,
            fields,
        };
        parts.write(out)
    }

    #[test]
    fn record_a_from_its_parts(rt: HostRuntime) {
        let parts = RecordParts {
            codes: CODES,
            extents: &[Extent { tag: 185, size: 8 }],
            fields: b"  \x1fjabc\x1e",
        };
        let mut out = [b'-'; 50];
        assert_eq!(rt; parts.write(&mut out), Ok(46));
        let a = *record_a();
        assert!(rt; out[0..46] == a[0..46]);
        assert!(rt; out[46..50] == [b'-'; 4][0..4]);
        let mut short = [b'-'; 45];
        assert_eq!(rt; parts.write(&mut short), Err(WriteFault::ShortBuffer));
        assert!(rt; short == [b'-'; 45]);
    }

    #[test]
    fn no_fields(rt: HostRuntime) {
        let mut out = [b'-'; 26];
        assert_eq!(rt; write(CODES, &[], b"", &mut out), Ok(26));
        assert!(rt; out == *b"00026nz   2200025n  4500\x1e\x1d");
    }

    // A capital letter as the sixth code, a tag and a length that are too wide, a length too many, and x for 1F.
    #[test]
    fn parts_that_make_no_record(rt: HostRuntime) {
        let a = [Extent { tag: 185, size: 8 }];
        let wide_tag = [Extent { tag: 1185, size: 8 }];
        let wide_size = [Extent {
            tag: 185,
            size: 18_446_744_073_709_551_615,
        }];
        let fields = b"  \x1fjabc\x1e";
        let mut out = [b'-'; 46];
        assert_eq!(rt;
            write(*b"nz   N  ", &a, fields, &mut out),
            refused(FrameFault::Leader { place: 17 })
        );
        assert_eq!(rt;
            write(CODES, &wide_tag, fields, &mut out),
            refused(FrameFault::Entry { place: 24 })
        );
        assert_eq!(rt;
            write(CODES, &wide_size, fields, &mut out),
            refused(FrameFault::Entry { place: 24 })
        );
        assert_eq!(rt;
            write(CODES, &a, b"  \x1fjab\x1e", &mut out),
            refused(FrameFault::DirectoryEnd { place: 36 })
        );
        assert_eq!(rt;
            write(CODES, &a, b"  xjabc\x1e", &mut out),
            refused(FrameFault::Field { place: 39 })
        );
        assert!(rt; out == [b'-'; 46]);
    }

    // Two blank indicators, 1F and a at the start of a field, and 1E at its end.
    fn mark_field(field: &mut [u8]) {
        if let Some((start, rest)) = field.split_first_chunk_mut::<4>() {
            *start = *b"  \x1fa";
            if let Some(end) = rest.last_mut() {
                *end = 0x1e;
            }
        }
    }

    #[test]
    fn longest_field(rt: HostRuntime) {
        let mut fields = [b'x'; 9_999];
        mark_field(&mut fields);
        let extent = Extent {
            tag: 500,
            size: 9_999,
        };
        let mut out = [b'-'; 10_038];
        assert_eq!(rt; write(CODES, &[extent], &fields, &mut out), Ok(10_037));
        let front = *b"10037nz   2200037n  4500500999900000\x1e";
        assert!(rt; out[0..37] == front[0..37]);
        assert!(rt; out[37..10_036] == fields[0..9_999]);
        assert!(rt; out[10_036..10_038] == [0x1d, b'-'][0..2]);
        let wider = [b'x'; 10_000];
        let extent = Extent {
            tag: 500,
            size: 10_000,
        };
        assert_eq!(rt;
            write(CODES, &[extent], &wider, &mut out),
            refused(FrameFault::Entry { place: 24 })
        );
    }

    // Nine fields of 9,985 bytes and one of 9,988: 26 + 12 x 10 + 99,853 bytes.
    #[test]
    fn longest_record(rt: HostRuntime) {
        let mut extents = [Extent {
            tag: 500,
            size: 9_985,
        }; 10];
        extents[9].size = 9_988;
        let mut fields = [b'x'; 99_853];
        let (nine, last) = fields.split_at_mut(89_865);
        for field in nine.chunks_exact_mut(9_985) {
            mark_field(field);
        }
        mark_field(last);
        let mut out = [b'-'; 99_999];
        assert_eq!(rt; write(CODES, &extents, &fields, &mut out), Ok(99_999));
        assert_eq!(rt; ibermarc21_frame_check(&out), 0);
        let last = *b"500998889865\x1e";
        assert!(rt; out[132..145] == last[0..13]);
        extents[9].size = 9_989;
        let longer = [b'x'; 99_854];
        assert_eq!(rt;
            write(CODES, &extents, &longer, &mut out),
            refused(FrameFault::Length)
        );
    }
}
