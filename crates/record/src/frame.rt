// The frame check.
ghost use Rattle.std.specs.Prelude.{◌≡◌, MatchResult};
ghost use Rattle.record.specs.Broken.{FirstBroken, NoneBroken};
ghost use Rattle.record.specs.Formed.{LaidOut};
ghost use Rattle.record.specs.Frame.{end_rule, frame_faults, frame_of, size_rule};
ghost use Rattle.record.specs.Rules.{verdict};

use crate::directory::Directory;
use crate::faults::FrameFault;
use crate::leader::check_leader;

// What the leader of a record whose frame holds says of its directory.
#[derive(Clone, Copy, Debug, PartialEq, Eq)]
pub struct Frame {
    entries: u16,
}

impl Frame {
    // The number of directory entries.
    pub fn entries(&self) -> u16
        ensures { result ≡ self.now.entries }
    {
        self.entries
    }
}

// Whether a record may have so many bytes.
fn size_holds(bytes: &[u8]) -> bool
    ensures { result ≡ size_rule bytes.now }
{
    (26..=99_999).contains(&bytes.len())
}

// Whether the last byte ends the record.
fn end_holds(bytes: &[u8]) -> bool
    ensures { result ≡ end_rule bytes.now }
{
    bytes.last() == Some(&0x1d)
}

// The frame check: the first fault, by number and then by place, or the frame where it holds.
pub fn check(record: &[u8]) -> Result<Frame, FrameFault>
    ensures answer { result ≡ verdict (frame_faults «record».now) (frame_of «record».now) }
    ensures laid { MatchResult result (λ _. LaidOut «record».now) (λ _. LaidOut «record».now → ⊥) }
    ensures rules { MatchResult result (λ _. NoneBroken «record».now) (FirstBroken «record».now) }
{
    first_fault(record)
}

// The first fault of the frame, or the frame where there is none.
fn first_fault(bytes: &[u8]) -> Result<Frame, FrameFault>
    ensures { result ≡ verdict (frame_faults bytes.now) (frame_of bytes.now) }
{
    if !size_holds(bytes) {
        return Err(FrameFault::Length);
    }
    check_leader(bytes)?;
    let directory = Directory::new(bytes);
    directory.check()?;
    directory.check_fields()?;
    if !end_holds(bytes) {
        return Err(FrameFault::RecordEnd {
            place: bytes.len() - 1,
        });
    }
    Ok(Frame {
        entries: directory.entries as u16,
    })
}
