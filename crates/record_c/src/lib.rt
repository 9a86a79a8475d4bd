#![tactic(auto)]

// The frame check in an archive that load programs written in C link: the library's own call, with its promises.
ghost use Rattle.std.specs.Prelude.{◌≡◌};
ghost use Rattle.record.specs.Frame.{frame_faults};
ghost use Rattle.record.specs.Told.{Readable, told};

use record::c_call;

// 0 where the frame holds, or else the refusal's number times 100,000 plus its place.
#[unsafe(no_mangle)]
pub extern "C" fn ibermarc21_frame_check(record: &[u8]) -> u64
    ensures answer { result ≡ told (frame_faults «record».now) }
    ensures readable { Readable (frame_faults «record».now) result }
{
    c_call::ibermarc21_frame_check(record)
}
