// Parts of the bytes that a caller lends, as far as there are any.
ghost use Rattle.std.specs.Prelude.{◌≡◌, ◌≤◌, drop, length, slice_index};
ghost use Rattle.record.specs.Figures.{part};

// The bytes from this place on, which are none past the end.
pub(crate) fn rest_of(bytes: &[u8], place: usize) -> &[u8]
    ensures { result.now ≡ drop place bytes.now }
{
    bytes.get(place..).unwrap_or(&[])
}

// The bytes from this place on, at most as many as `size`.
pub(crate) fn part_of(bytes: &[u8], place: usize, size: usize) -> &[u8]
    ensures value { result.now ≡ part bytes.now place size }
    ensures short { length result.now ≤ size }
{
    let rest = rest_of(bytes, place);
    rest.get(..size).unwrap_or(rest)
}

// The byte at this place, or 0 past the end.
pub(crate) fn byte_at(bytes: &[u8], place: usize) -> u8
    ensures { result ≡ slice_index bytes.now place }
{
    bytes.get(place).copied().unwrap_or(0)
}
