// The parts that a record is written from, and their faults, told before anything is written.
ghost use Rattle.std.specs.Prelude.{◌≡◌, ◌+◌, ◌*◌, ◌<◌, ◌≤◌, length};
ghost use Rattle.record.specs.Extents.{total};
ghost use Rattle.record.specs.Layout.{laid_length};
ghost use Rattle.record.specs.PartsFaults.{code_faults, content_faults, extent_faults, extent_rule, faults_in, length_faults};
ghost use Rattle.record.specs.Rules.{Verdict, over, verdict};

use crate::classes::is_code_character;
use crate::contents::check_field;
use crate::extent::Extent;
use crate::faults::FrameFault;
use crate::leader::positions;
use crate::output::CheckedParts;
use crate::slices::part_of;

// What a record is written from: eight leader codes, the extents of its fields and their bytes end to end.
#[derive(Clone, Copy)]
pub struct RecordParts<'a> {
    pub codes: [u8; 8],
    pub extents: &'a [Extent],
    pub fields: &'a [u8],
}

impl<'a> RecordParts<'a> {
    // The first fault of the record that these parts make, or the parts as checked.
    pub(crate) fn check(&self) -> Result<CheckedParts<'a>, FrameFault>
        ensures { Verdict (faults_in self.now) (λ c. c.parts ≡ self.now) result }
    {
        self.check_length()?;
        check_codes(&self.codes)?;
        let sum = check_extents(self.extents)?;
        if sum != self.fields.len() {
            return Err(FrameFault::DirectoryEnd {
                place: 24 + 12 * self.extents.len(),
            });
        }
        self.check_contents()?;
        Ok(CheckedParts { parts: *self })
    }

    // Whether the record is too long.
    fn check_length(&self) -> Result<(), FrameFault>
        ensures { result ≡ verdict (length_faults self.now.extents.now self.now.fields.now) tt }
    {
        let entries = self.extents.len();
        let bytes = self.fields.len();
        if entries > 99_999 || bytes > 99_999 || 26 + 12 * entries + bytes > 99_999 {
            return Err(FrameFault::Length);
        }
        Ok(())
    }

    // The first fault among the fields, or none.
    fn check_contents(&self) -> Result<(), FrameFault>
        requires short { laid_length self.now.extents.now self.now.fields.now ≤ 99999 }
        requires filled { total self.now.extents.now ≡ length self.now.fields.now }
        ensures { result ≡ verdict (over (content_faults self.now.extents.now self.now.fields.now) 0 (length self.now.extents.now)) tt }
    {
        let base = 25 + 12 * self.extents.len();
        let mut start = 0;
        for extent in self.extents {
            let field = part_of(self.fields, start, extent.size);
            check_field(usize::from(extent.tag), field, base + start)?;
            start += extent.size;
        }
        Ok(())
    }
}

// The first fault among the leader codes, or none.
fn check_codes(codes: &[u8; 8]) -> Result<(), FrameFault>
    ensures { result ≡ verdict (over (code_faults codes.now) 0 8) tt }
{
    match positions()
        .iter()
        .zip(codes)
        .find(|(_, code)| !is_code_character(**code))
    {
        Some((place, _)) => Err(FrameFault::Leader { place: *place }),
        None => Ok(()),
    }
}

// Whether an entry has room for its numbers, and neither tag nor length is 0.
fn extent_holds(extent: Extent, start: usize) -> bool
    ensures { result ≡ extent_rule extent start }
{
    (1..=999).contains(&extent.tag) && (1..=9999).contains(&extent.size) && start <= 99_999
}

// The first fault among the extents, or their lengths added up.
fn check_extents(extents: &[Extent]) -> Result<usize, FrameFault>
    requires { length extents.now ≤ 99999 }
    ensures { result ≡ verdict (over (extent_faults extents.now) 0 (length extents.now)) (total extents.now) }
{
    let mut start = 0;
    for (k, extent) in extents.iter().enumerate() {
        if !extent_holds(*extent, start) {
            return Err(FrameFault::Entry { place: 24 + 12 * k });
        }
        start += extent.size;
    }
    Ok(start)
}
