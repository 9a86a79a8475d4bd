// A directory entry.
ghost use Rattle.std.specs.Prelude.{◌≡◌, ◌+◌, ◌*◌, ◌^◌, ◌<◌, ◌≤◌, ◌&&◌, ◌==◌, length, nat_lt};
ghost use Rattle.record.specs.Entries.{entry_told, numbers_of};

use crate::figures::{figure_at, number_at};

// The numbers that an entry tells: the tag, the length and the start of its field.
#[derive(Clone, Copy)]
pub(crate) struct Entry {
    pub(crate) tag: usize,
    pub(crate) size: usize,
    pub(crate) start: usize,
}

impl Entry {
    // The numbers of entry `k`, whatever bytes stand there.
    pub(crate) fn read(bytes: &[u8], k: usize) -> Entry
        requires { k ≤ 99999 }
        ensures numbers { result ≡ numbers_of bytes.now k }
        ensures small_tag { result.tag < 23 * 10 ^ 3 }
        ensures small_size { result.size < 23 * 10 ^ 4 }
        ensures small_start { result.start < 23 * 10 ^ 5 }
    {
        let place = 24 + 12 * k;
        Entry {
            tag: number_at(bytes, place, 3),
            size: number_at(bytes, place + 3, 4),
            start: number_at(bytes, place + 7, 5),
        }
    }

    // Whether tag and length are not 0, and the field starts where the lengths before it add up to.
    pub(crate) fn follows(self, before: usize) -> bool
        ensures { result ≡ (nat_lt 0 self.tag && (nat_lt 0 self.size && self.start == before)) }
    {
        self.tag > 0 && self.size > 0 && self.start == before
    }
}

// What entry `k` tells, or none where it is not twelve digits.
pub(crate) fn entry_at(bytes: &[u8], k: usize) -> Option<Entry>
    requires { 36 + 12 * k ≤ length bytes.now }
    ensures { result ≡ entry_told bytes.now k }
{
    let place = 24 + 12 * k;
    Some(Entry {
        tag: figure_at(bytes, place, 3)?,
        size: figure_at(bytes, place + 3, 4)?,
        start: figure_at(bytes, place + 7, 5)?,
    })
}
