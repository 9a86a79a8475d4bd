// The leader of a record: its figures and its code characters.
ghost use Rattle.std.specs.Prelude.{◌≡◌, ◌*◌, ◌^◌, ◌<◌};
ghost use Rattle.record.specs.Leader.{base, base_rule, code_positions, leader_faults, leader_rule, length_rule, widths_rule};
ghost use Rattle.record.specs.Rules.{verdict};

use crate::classes::is_code_character;
use crate::faults::FrameFault;
use crate::figures::{figure_at, number_at};
use crate::slices::byte_at;

const CODE_POSITIONS: [usize; 8] = [5, 6, 7, 8, 9, 17, 18, 19];

// The positions of the eight leader codes, in their order.
pub fn positions() -> &'static [usize; 8]
    ensures { result.now ≡ code_positions }
{
    &CODE_POSITIONS
}

// The base that the leader tells, or the number that stands in its place.
pub(crate) fn told_base(bytes: &[u8]) -> usize
    ensures value { result ≡ base bytes.now }
    ensures small { result < 23 * 10 ^ 5 }
{
    number_at(bytes, 12, 5)
}

// Whether the first five bytes say how long the record is.
fn length_holds(bytes: &[u8]) -> bool
    ensures { result ≡ length_rule bytes.now }
{
    figure_at(bytes, 0, 5) == Some(bytes.len())
}

// Whether the base is a figure that leaves room for whole entries, and lies before the last byte.
fn base_holds(bytes: &[u8]) -> bool
    ensures { result ≡ base_rule bytes.now }
{
    figure_at(bytes, 12, 5).is_some_and(|base| base >= 25 && base % 12 == 1 && base < bytes.len())
}

// Whether the widths of what a directory entry has are 4, 5, 0 and 0.
fn widths_hold(bytes: &[u8]) -> bool
    ensures { result ≡ widths_rule bytes.now }
{
    bytes.get(20..24) == Some(b"4500")
}

// Whether what begins at this position of the leader is right.
fn position_holds(bytes: &[u8], position: usize) -> bool
    ensures { result ≡ leader_rule bytes.now position }
{
    match position {
        0 => length_holds(bytes),
        5..=9 | 17..=19 => is_code_character(byte_at(bytes, position)),
        10 | 11 => byte_at(bytes, position) == b'2',
        12 => base_holds(bytes),
        20 => widths_hold(bytes),
        _ => true,
    }
}

// The first fault of the leader, or none.
pub(crate) fn check_leader(bytes: &[u8]) -> Result<(), FrameFault>
    ensures { result ≡ verdict (leader_faults bytes.now) tt }
{
    match (0..24).find(|position| !position_holds(bytes, *position)) {
        Some(place) => Err(FrameFault::Leader { place }),
        None => Ok(()),
    }
}
