// The fields of a record, as parts of the caller's bytes.
ghost use Rattle.std.specs.Prelude.{◌≡◌, ◌-◌, ◌^◌, ◌<◌};
ghost use Rattle.record.specs.Cursors.{FieldStep, fields_left, seen_content, seen_field, subfields_left};
ghost use Rattle.record.specs.Figures.{part};
ghost use Rattle.record.specs.Reading.{extent_read, field_read, fields_from, held, subfields_held};
ghost use Rattle.std.specs.Iterator.{at_most};

use crate::entry::Entry;
use crate::extent::Extent;
use crate::leader::told_base;
use crate::slices::{byte_at, part_of};
use crate::subfields::Subfields;

// What a field holds: a control field's bytes, or two indicators and subfields. The 1E that ends it is left out.
#[derive(Clone, Copy)]
pub enum Content<'a> {
    Control(&'a [u8]),
    Data {
        first: u8,
        second: u8,
        subfields: Subfields<'a>,
    },
}

// A field with its tag, the place of its directory entry, its own place and its length, both in bytes of the record.
#[derive(Clone, Copy)]
pub struct Field<'a> {
    pub tag: u16,
    pub entry: usize,
    pub place: usize,
    pub size: usize,
    pub content: Content<'a>,
}

// The fields of a record that are still to come.
#[derive(Clone, Copy)]
pub struct Fields<'a> {
    bytes: &'a [u8],
    next: u16,
    entries: u16,
}

impl<'a> Field<'a> {
    // The tag and the length, as the directory entry has them.
    pub fn extent(&self) -> Extent
        ensures { result ≡ extent_read (seen_field self.now) }
    {
        Extent {
            tag: self.tag,
            size: self.size,
        }
    }

    // The subfields of a data field; a control field has none.
    pub fn subfields(&self) -> Subfields<'a>
        ensures { subfields_left result ≡ subfields_held (seen_field self.now).holds }
    {
        match self.content {
            Content::Control(_) => Subfields::new(b"", 0),
            Content::Data { subfields, .. } => subfields,
        }
    }
}

impl<'a> Fields<'a> {
    // The fields of the first entries of a record.
    pub(crate) fn new(bytes: &'a [u8], entries: u16) -> Fields<'a>
        ensures { fields_left result ≡ fields_from bytes.now 0 entries }
    {
        Fields {
            bytes,
            next: 0,
            entries,
        }
    }
}

impl<'a> Iterator for Fields<'a> {
    type Item = Field<'a>;

    ghost next_gives = { FieldStep };

    ghost remaining = { λ s. at_most (s.entries - s.next) };

    fn next(&mut self) -> Option<Field<'a>> {
        let k = self.next;
        if k >= self.entries {
            return None;
        }
        self.next = k + 1;
        Some(field_at(self.bytes, k))
    }
}

// The field of entry `k`.
fn field_at<'a>(bytes: &'a [u8], k: u16) -> Field<'a>
    ensures { seen_field result ≡ field_read bytes.now k }
{
    let k = usize::from(k);
    let Entry { tag, size, start } = Entry::read(bytes, k);
    let tag = tag as u16;
    let place = told_base(bytes) + start;
    Field {
        tag,
        entry: 24 + 12 * k,
        place,
        size,
        content: open(tag, bytes, place, size),
    }
}

// What a field of this size holds that begins at this place.
fn open<'a>(tag: u16, bytes: &'a [u8], place: usize, size: usize) -> Content<'a>
    requires begins { place < 2 ^ 32 }
    requires short { size < 2 ^ 32 }
    ensures { seen_content result ≡ held tag place (part bytes.now place size) }
{
    let field = part_of(bytes, place, size);
    let end = field.len().saturating_sub(1);
    if tag < 10 {
        Content::Control(part_of(field, 0, end))
    } else {
        Content::Data {
            first: byte_at(field, 0),
            second: byte_at(field, 1),
            subfields: Subfields::new(part_of(bytes, 0, place + end), place + 2),
        }
    }
}
