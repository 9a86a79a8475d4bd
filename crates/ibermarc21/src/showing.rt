// The command `show`: each record as people read it.
use crate::files::{Position, Visit};
use crate::words::tell_fault;
use record::fields::{Content, Field};
use record::reading::{Record, read};
use std::alloc::{AllocError, Global};
use std::io;
use std::io::Write;

// The digits of hexadecimal numbers.
const HEX: &[u8; 16] = b"0123456789ABCDEF";

// Room for the leader's line, which has 29 bytes: what a text takes is then a power of two.
const LEADER_LINE: usize = 32;

// Prints each record; there is nothing to keep between them.
#[derive(Clone, Copy)]
pub(crate) struct Showing;

impl Visit for Showing {
    // Prints a record, or what is wrong with it.
    fn visit(
        &mut self,
        rt: &HostRuntime,
        position: Position<'_>,
        record: &[u8],
    ) -> anyhow::Result<()> {
        match read(record) {
            Ok(parts) => {
                println!(rt; "{position}")?;
                let text = record_text(rt.alloc(), parts)?;
                rt.stdout().write_all(&text)?;
            }
            Err(fault) => tell_fault(rt, position, fault)?,
        }
        Ok(())
    }
}

// The leader in a line, and then a line a field.
fn record_text(heap: Global, record: Record<'_>) -> io::Result<Vec<u8>> {
    let mut text = Vec::with_capacity(heap, LEADER_LINE)?;
    text.extend_from_slice(b"LDR ")?;
    push_codes(&mut text, record.leader())?;
    text.push(b'\n')?;
    for field in record.fields() {
        push_field(&mut text, field)?;
    }
    Ok(text)
}

// The tag in three digits, and a control field's bytes or the indicators and subfields.
fn push_field(text: &mut Vec<u8>, field: Field<'_>) -> Result<(), AllocError> {
    let tag = field.tag;
    text.extend_from_slice(&[tag / 100, tag / 10, tag].map(|n| b'0' + (n % 10) as u8))?;
    text.push(b' ')?;
    match field.content {
        Content::Control(bytes) => push_data(text, bytes)?,
        Content::Data {
            first,
            second,
            subfields,
        } => {
            push_codes(text, &[first, second])?;
            text.push(b' ')?;
            for subfield in subfields {
                text.extend_from_slice(&[b'$', subfield.code])?;
                push_data(text, subfield.body)?;
            }
        }
    }
    text.push(b'\n')?;
    Ok(())
}

// Codes, with # for the blank.
fn push_codes(text: &mut Vec<u8>, codes: &[u8]) -> Result<(), AllocError> {
    text.extend(
        codes.iter().map(|code| match *code {
            b' ' => b'#',
            code => code,
        }),
    )
}

// Bytes as they are, but for those below the blank, which would break the line: <0A> for a line feed.
fn push_data(text: &mut Vec<u8>, bytes: &[u8]) -> Result<(), AllocError> {
    for byte in bytes {
        match *byte {
            byte @ 0..=0x1f => {
                let high = HEX[usize::from(byte / 16)];
                let low = HEX[usize::from(byte % 16)];
                text.extend_from_slice(&[b'<', high, low, b'>'])?
            }
            byte => text.push(byte)?,
        }
    }
    Ok(())
}

#[cfg(test)]
mod tests {
    use super::record_text;
    use record::reading::read;

    // 001 with a blank, 003 with no byte but its 1E, and 245 with an empty $a, $b with bytes above 7E and below 20, and an empty $c.
    #[test]
    fn a_record_as_people_read_it(rt: HostRuntime) {
        let record =
            b"00081nam  2200061   4500001000400000003000100004245001400005\x1ea 1\x1e\x1e10\x1fa\x1fbA\xc3\xb1\x1b\n\x1fc\x1e\x1d";
        let text = b"LDR 00081nam##2200061###4500\n001 a 1\n003 \n245 10 $a$bA\xc3\xb1<1B><0A>$c\n";
        let parts = read(record).expect(&rt, "the frame holds");
        let shown = record_text(rt.alloc(), parts).expect(&rt, "there is memory");
        assert!(rt; shown.as_slice() == text.as_slice());
    }
}
