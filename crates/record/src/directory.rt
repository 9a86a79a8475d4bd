// The directory of a record.
ghost use Rattle.std.specs.Prelude.{◌≡◌, ◌+◌, ◌*◌, ◌<◌, ◌≤◌, true, [], length};
ghost use Rattle.record.specs.Directory.{directory_end_rule, directory_faults, entry_faults, sizes_before};
ghost use Rattle.record.specs.Entries.{entry_after};
ghost use Rattle.record.specs.Frame.{size_rule};
ghost use Rattle.record.specs.Leader.{base, entry_count, leader_faults};
ghost use Rattle.record.specs.Rules.{over, verdict};

use crate::entry::{Entry, entry_at};
use crate::faults::FrameFault;
use crate::leader::told_base;

// The directory of a record whose length and leader hold, in the record's bytes.
#[derive(Clone, Copy)]
pub(crate) struct Directory<'a> {
    pub(crate) bytes: &'a [u8],
    pub(crate) entries: usize,
    ghost counted: { entries ≡ entry_count bytes.now },
    ghost based: { base bytes.now ≡ 25 + 12 * entries },
    ghost inside: { base bytes.now < length bytes.now },
    ghost short: { length bytes.now ≤ 99999 },
}

impl<'a> Directory<'a> {
    // The directory that the leader tells of.
    pub(crate) fn new(bytes: &'a [u8]) -> Directory<'a>
        requires sized { size_rule bytes.now ≡ true }
        requires led { leader_faults bytes.now ≡ [] }
        ensures { result.bytes.now ≡ bytes.now }
    {
        let entries = (told_base(bytes) - 25) / 12;
        Directory { bytes, entries }
    }

    // Entry `k`, where it is right and the lengths before it add up to `before`.
    fn entry(&self, k: usize, before: usize) -> Option<Entry>
        requires { k < self.now.entries }
        ensures { result ≡ entry_after self.now.bytes.now k before }
    {
        entry_at(self.bytes, k).filter(|entry| entry.follows(before))
    }

    // The first fault among the entries, or their lengths added up.
    fn check_entries(&self) -> Result<usize, FrameFault>
        ensures { result ≡ verdict (over (entry_faults self.now.bytes.now) 0 self.now.entries) (sizes_before self.now.bytes.now self.now.entries) }
    {
        let mut before = 0;
        for k in 0..self.entries {
            let Some(entry) = self.entry(k, before) else {
                return Err(FrameFault::Entry { place: 24 + 12 * k });
            };
            before += entry.size;
        }
        Ok(before)
    }

    // Whether the directory ends where it should, and the fields, `sum` bytes in all, fill the record up to its last byte.
    fn end_holds(&self, sum: usize) -> bool
        requires { sum ≡ sizes_before self.now.bytes.now self.now.entries }
        ensures { result ≡ directory_end_rule self.now.bytes.now }
    {
        let end = 24 + 12 * self.entries;
        self.bytes[end] == 0x1e && sum == self.bytes.len() - end - 2
    }

    // The first fault of the directory, or none.
    pub(crate) fn check(&self) -> Result<(), FrameFault>
        ensures { result ≡ verdict (directory_faults self.now.bytes.now) tt }
    {
        let sum = self.check_entries()?;
        if !self.end_holds(sum) {
            return Err(FrameFault::DirectoryEnd {
                place: 24 + 12 * self.entries,
            });
        }
        Ok(())
    }
}
