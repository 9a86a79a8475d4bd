// Parts that have no fault, and the record that they make, written into a buffer of its length.
ghost use Rattle.std.specs.Prelude.{◌≡◌, ◌*◌, ◌^◌, ◌<◌, true, [], length};
ghost use Rattle.record.specs.Layout.{directory, entry, figure, laid_from, laid_length, leader};
ghost use Rattle.record.specs.PartsFaults.{extent_rule, faults_in};

use crate::extent::Extent;
use crate::parts::RecordParts;

// Parts that have no fault. `check` of `RecordParts` makes them.
#[derive(Clone, Copy)]
pub(crate) struct CheckedParts<'a> {
    pub(crate) parts: RecordParts<'a>,
    ghost faultless: { faults_in parts ≡ [] },
}

impl CheckedParts<'_> {
    // The length of the record.
    pub(crate) fn len(&self) -> usize
        ensures { result ≡ laid_length self.now.parts.extents.now self.now.parts.fields.now }
    {
        26 + 12 * self.parts.extents.len() + self.parts.fields.len()
    }

    // Writes the record.
    pub(crate) fn put(&self, out: &mut [u8])
        requires { length out.old ≡ laid_length self.now.parts.extents.now self.now.parts.fields.now }
        ensures { out.new ≡ laid_from self.now.parts }
    {
        let len = out.len();
        let base = 25 + 12 * self.parts.extents.len();
        put_leader(&mut out[..24], &self.parts.codes, len, base);
        self.put_directory(&mut out[24..base - 1]);
        out[base - 1] = 0x1e;
        out[base..len - 1].copy_from_slice(self.parts.fields);
        out[len - 1] = 0x1d;
    }

    // Writes the directory entries.
    fn put_directory(&self, out: &mut [u8])
        requires { length out.old ≡ 12 * length self.now.parts.extents.now }
        ensures { out.new ≡ directory 0 self.now.parts.extents.now }
    {
        let mut start = 0;
        for (k, extent) in self.parts.extents.iter().enumerate() {
            put_entry(&mut out[12 * k..12 * k + 12], *extent, start);
            start += extent.size;
        }
    }
}

// Writes the leader of a record of this length, with this base.
fn put_leader(out: &mut [u8], codes: &[u8; 8], len: usize, base: usize)
    requires room { length out.old ≡ 24 }
    requires short_length { len < 100000 }
    requires short_base { base < 100000 }
    ensures { out.new ≡ leader codes.now len base }
{
    put_figure(&mut out[0..5], len);
    out[5..10].copy_from_slice(&codes[0..5]);
    out[10..12].copy_from_slice(b"22");
    put_figure(&mut out[12..17], base);
    out[17..20].copy_from_slice(&codes[5..8]);
    out[20..24].copy_from_slice(b"4500");
}

// Writes a directory entry.
fn put_entry(out: &mut [u8], extent: Extent, start: usize)
    requires room { length out.old ≡ 12 }
    requires right { extent_rule extent start ≡ true }
    ensures { out.new ≡ entry extent start }
{
    put_figure(&mut out[0..3], usize::from(extent.tag));
    put_figure(&mut out[3..7], extent.size);
    put_figure(&mut out[7..12], start);
}

// Writes a number in decimal digits that fill these bytes.
fn put_figure(out: &mut [u8], n: usize)
    requires { n < 10 ^ length out.old }
    ensures { out.new ≡ figure (length out.old) n }
{
    if let Some((last, rest)) = out.split_last_mut() {
        *last = b'0' + (n % 10) as u8;
        put_figure(rest, n / 10);
    }
}
