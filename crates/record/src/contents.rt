// The bytes of the fields.
ghost use Rattle.std.specs.Prelude.{◌≡◌, ◌+◌, ◌<◌, ◌≤◌, [], length};
ghost use Rattle.record.specs.Contents.{byte_rule, control_rule, data_rule, faults_of, field_faults, field_place, fields_faults, last};
ghost use Rattle.record.specs.Directory.{directory_faults, entry_size};
ghost use Rattle.record.specs.Rules.{verdict};

use crate::classes::{is_code_character, is_subfield_code};
use crate::directory::Directory;
use crate::entry::Entry;
use crate::faults::FrameFault;
use crate::slices::byte_at;

// Whether byte `i` is the last of a field.
fn is_last(field: &[u8], i: usize) -> bool
    ensures { result ≡ last field.now i }
{
    i.checked_add(1) == Some(field.len())
}

// Whether byte `i` of a control field is right.
fn control_holds(field: &[u8], i: usize) -> bool
    ensures { result ≡ control_rule field.now i }
{
    match byte_at(field, i) {
        0x1e => is_last(field, i),
        0x1d | 0x1f => false,
        _ => !is_last(field, i),
    }
}

// Whether byte `i` of a data field is right.
fn data_holds(field: &[u8], i: usize) -> bool
    ensures { result ≡ data_rule field.now i }
{
    let byte = byte_at(field, i);
    let in_class = match i {
        0 | 1 => is_code_character(byte),
        2 => byte == 0x1f,
        _ => byte_at(field, i - 1) != 0x1f || is_subfield_code(byte),
    };
    in_class
        && if is_last(field, i) {
            byte == 0x1e
        } else {
            byte != 0x1d && byte != 0x1e
        }
}

// Whether byte `i` of a field with this tag is right.
fn byte_holds(tag: usize, field: &[u8], i: usize) -> bool
    ensures { result ≡ byte_rule tag field.now i }
{
    if tag < 10 {
        control_holds(field, i)
    } else {
        data_holds(field, i)
    }
}

// The first fault of a field that begins at this place, or none.
pub(crate) fn check_field(tag: usize, field: &[u8], place: usize) -> Result<(), FrameFault>
    requires { place + length field.now ≤ 99999 }
    ensures { result ≡ verdict (field_faults tag field.now place) tt }
{
    for i in 0..field.len() {
        if !byte_holds(tag, field, i) {
            return Err(FrameFault::Field { place: place + i });
        }
    }
    Ok(())
}

impl<'a> Directory<'a> {
    // The first fault of field `k`, which begins at this place, or the place after it.
    fn check_next(&self, k: usize, place: usize) -> Result<usize, FrameFault>
        requires entry { k < self.now.entries }
        requires begins { place ≡ field_place self.now.bytes.now k }
        requires ends { place + entry_size self.now.bytes.now k ≤ length self.now.bytes.now }
        ensures { result ≡ verdict (faults_of self.now.bytes.now k) (place + entry_size self.now.bytes.now k) }
    {
        let entry = Entry::read(self.bytes, k);
        let end = place + entry.size;
        check_field(entry.tag, &self.bytes[place..end], place)?;
        Ok(end)
    }

    // The first fault among the fields, or none.
    pub(crate) fn check_fields(&self) -> Result<(), FrameFault>
        requires { directory_faults self.now.bytes.now ≡ [] }
        ensures { result ≡ verdict (fields_faults self.now.bytes.now) tt }
    {
        let mut place = 25 + 12 * self.entries;
        for k in 0..self.entries {
            place = self.check_next(k, place)?;
        }
        Ok(())
    }
}
