// Copying: a record is read, and written anew from its parts.
ghost use Rattle.std.specs.Prelude.{◌≡◌, ◌≤◌, map, length, IfOk, Some};
ghost use Rattle.record.specs.Cursors.{fields_in};
ghost use Rattle.record.specs.Reading.{extent_read};
ghost use Rattle.record.specs.declared.writing.WriteFault.TheVariants.{Frame};
ghost use Rattle.exports.specs.declared.copy.Uncopied.TheVariants.{Refused, NoMemory};
ghost use Rattle.exports.specs.Copies.{Copies};
ghost use Rattle.exports.specs.Words.{uncopied_text};

use record::extent::Extent;
use record::faults::FrameFault;
use record::parts::RecordParts;
use record::reading::{Record, read};
use record::writing::WriteFault;
use std::alloc::{AllocError, Global};
use std::error::Error;
use std::fmt;

// Why a record is not copied.
#[derive(Clone, Copy, Debug, PartialEq, Eq)]
pub enum Uncopied {
    // a fault of its frame, or a buffer that is shorter than the record
    Refused(WriteFault),
    // no memory for the list of its fields
    NoMemory,
}

impl fmt::Display for Uncopied {
    ghost output = { λ why. Some (uncopied_text why) };

    fn fmt<W: fmt::Write>(&self, f: &mut fmt::Formatter<W>) -> fmt::Result {
        match self {
            Uncopied::Refused(fault) => write!(f, "{fault}"),
            Uncopied::NoMemory => f.write_str("no memory for the fields of a record"),
        }
    }
}

impl Error for Uncopied {}

impl From<FrameFault> for Uncopied {
    ghost from_gives = { λ f u. u ≡ Refused (Frame f) };

    fn from(fault: FrameFault) -> Uncopied
        ensures { result ≡ Refused (Frame fault) }
    {
        Self::Refused(WriteFault::Frame(fault))
    }
}

impl From<WriteFault> for Uncopied {
    ghost from_gives = { λ f u. u ≡ Refused f };

    fn from(fault: WriteFault) -> Uncopied
        ensures { result ≡ Refused fault }
    {
        Self::Refused(fault)
    }
}

impl From<AllocError> for Uncopied {
    ghost from_gives = { λ _ u. u ≡ NoMemory };

    fn from(_: AllocError) -> Uncopied
        ensures { result ≡ NoMemory }
    {
        Self::NoMemory
    }
}

// Reads a record and writes it anew into the buffer, byte for byte, and tells its length.
pub fn copy_record(heap: Global, record: &[u8], out: &mut [u8]) -> Result<usize, Uncopied>
    ensures copy { Copies «record».now out.old result out.new }
    ensures within { IfOk result (λ n. n ≤ length out.new) }
{
    let from = read(record)?;
    let extents = extents_of(heap, from)?;
    let parts = RecordParts {
        codes: from.codes(),
        extents: &extents,
        fields: from.contents(),
    };
    let len = parts.write(out)?;
    Ok(len)
}

// The tags and lengths of the fields of a record.
fn extents_of(heap: Global, parts: Record<'_>) -> Result<Vec<Extent>, AllocError>
    ensures { IfOk result (λ v. v.items ≡ map extent_read (fields_in parts.entry)) }
{
    parts.fields().map(|field| field.extent()).collect(heap)
}

#[cfg(test)]
mod tests {
    use super::{Uncopied, copy_record};
    use record::examples::record_a;
    use record::faults::FrameFault;
    use record::writing::WriteFault;

    // Record A, and the two bytes past it as they were; then record A with x for the 1F at byte 39, which leaves the buffer alone.
    #[test]
    fn record_a_is_copied(rt: HostRuntime) {
        let a = *record_a();
        let mut out = [b'-'; 48];
        assert_eq!(rt; copy_record(rt.alloc(), &a, &mut out), Ok(46));
        assert!(rt; out[0..46] == a[0..46]);
        assert!(rt; out[46..48] == [b'-'; 2][0..2]);
        let mut no_mark = a;
        no_mark[39] = b'x';
        let mut kept = [b'-'; 48];
        let refused = Uncopied::Refused(WriteFault::Frame(FrameFault::Field { place: 39 }));
        assert_eq!(rt; copy_record(rt.alloc(), &no_mark, &mut kept), Err(refused));
        assert!(rt; kept == [b'-'; 48]);
    }
}
