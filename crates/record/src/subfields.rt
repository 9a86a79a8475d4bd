// The subfields of a data field, as parts of the caller's bytes.
ghost use Rattle.std.specs.Prelude.{◌≡◌, ◌+◌, ◌-◌, ◌<◌, length, drop, slice_index};
ghost use Rattle.record.specs.Cursors.{SubfieldStep, subfields_left};
ghost use Rattle.record.specs.Reading.{piece, subfields_in};
ghost use Rattle.std.specs.Iterator.{at_most};

use crate::slices::{byte_at, part_of, rest_of};

// The byte that begins a subfield.
const SUBFIELD_MARK: u8 = 0x1f;

// A subfield: its code, its data, and the place of its 1F in the record.
#[derive(Clone, Copy)]
pub struct Subfield<'a> {
    pub place: usize,
    pub code: u8,
    pub body: &'a [u8],
}

// The subfields that begin at this place or after it, up to the end of these bytes.
#[derive(Clone, Copy)]
pub struct Subfields<'a> {
    bytes: &'a [u8],
    place: usize,
}

impl<'a> Subfields<'a> {
    // The subfields from this place on, in bytes that end with their field.
    pub(crate) fn new(bytes: &'a [u8], place: usize) -> Subfields<'a>
        ensures { subfields_left result ≡ subfields_in place (drop place bytes.now) }
    {
        Subfields { bytes, place }
    }
}

impl<'a> Iterator for Subfields<'a> {
    type Item = Subfield<'a>;

    ghost next_gives = { SubfieldStep };

    ghost remaining = { λ s. at_most (length s.bytes.now - s.place) };

    fn next(&mut self) -> Option<Subfield<'a>> {
        let place = delimiter(self.bytes, self.place);
        if place >= self.bytes.len() {
            return None;
        }
        let end = delimiter(self.bytes, place + 1);
        let rest = part_of(self.bytes, place + 1, end - place - 1);
        self.place = end;
        Some(Subfield {
            place,
            code: byte_at(rest, 0),
            body: rest_of(rest, 1),
        })
    }
}

// The place of the next 1F, or of the end.
fn delimiter(bytes: &[u8], place: usize) -> usize
    ensures value { result ≡ place + length (piece (drop place bytes.now)) }
    ensures stops { result < length bytes.now → slice_index bytes.now result ≡ 31 }
{
    let rest = rest_of(bytes, place);
    let before = rest.iter().position(|byte| *byte == SUBFIELD_MARK);
    place + before.unwrap_or(rest.len())
}
