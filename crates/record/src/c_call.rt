// The frame check as load programs written in C call it, through the crate record_c.
ghost use Rattle.std.specs.Prelude.{◌≡◌, ◌+◌, ◌*◌, ◌<◌};
ghost use Rattle.record.specs.Frame.{frame_faults};
ghost use Rattle.record.specs.Told.{Readable, told};

use crate::faults::{Refusal, Values};
use crate::frame::check;

// 0 where the frame holds, or else the refusal's number times 100,000 plus its place.
pub fn ibermarc21_frame_check(record: &[u8]) -> u64
    ensures answer { result ≡ told (frame_faults «record».now) }
    ensures readable { Readable (frame_faults «record».now) result }
{
    match check(record) {
        Ok(_) => 0,
        Err(fault) => in_one_number(fault.values()),
    }
}

// The number and the place of a refusal, in one number.
fn in_one_number(values: Values) -> u64
    requires { values.place < 100000 }
    ensures { result ≡ values.number * 100000 + values.place }
{
    u64::from(values.number) * 100_000 + values.place as u64
}

#[cfg(test)]
mod tests {
    use super::ibermarc21_frame_check;
    use crate::examples::record_a;

    #[test]
    fn known_answers(rt: HostRuntime) {
        assert_eq!(rt; ibermarc21_frame_check(record_a()), 0);
        let mut long = *record_a();
        long[4] = b'7';
        assert_eq!(rt; ibermarc21_frame_check(&long), 1_900_000);
        let mut no_mark = *record_a();
        no_mark[39] = b'x';
        assert_eq!(rt; ibermarc21_frame_check(&no_mark), 2_100_039);
        assert_eq!(rt;
            ibermarc21_frame_check(b"00026nz   2200025n  4500\x1e\x1d"),
            0
        );
        assert_eq!(rt;
            ibermarc21_frame_check(b"00026nz   2200025n  4500\x1e"),
            1_800_000
        );
    }

    #[test]
    fn no_records(rt: HostRuntime) {
        assert_eq!(rt; ibermarc21_frame_check(b""), 1_800_000);
        assert_eq!(rt; ibermarc21_frame_check(&[b'0'; 99_999]), 1_900_000);
        assert_eq!(rt; ibermarc21_frame_check(&[b'0'; 100_000]), 1_800_000);
        assert_eq!(rt; ibermarc21_frame_check(&[0; 46]), 1_900_000);
        assert_eq!(rt; ibermarc21_frame_check(&[0x1e; 46]), 1_900_000);
    }

    // A base, a length and a start that pass the end, and two fields in one place.
    #[test]
    fn figures_out_of_place(rt: HostRuntime) {
        assert_eq!(rt;
            ibermarc21_frame_check(b"00046nz   2299997n  4500185000800000\x1e  \x1fjabc\x1e\x1d"),
            1_900_012
        );
        assert_eq!(rt;
            ibermarc21_frame_check(b"00046nz   2200037n  4500185999900000\x1e  \x1fjabc\x1e\x1d"),
            2_000_036
        );
        assert_eq!(rt;
            ibermarc21_frame_check(b"00046nz   2200037n  4500185000899999\x1e  \x1fjabc\x1e\x1d"),
            2_000_024
        );
        assert_eq!(rt;
            ibermarc21_frame_check(
                b"00061nz   2200049n  4500001000300000185000800000\x1ea1\x1e  \x1fjabc\x1e\x1d",
            ),
            2_000_036
        );
    }
}
