// The command `copy`: each record is read, and written anew to another file.
use crate::files::{Position, Visit, or_tell, visit_export};
use crate::words::tell_fault;
use exports::copy::{Uncopied, copy_record};
use record::writing::WriteFault;
use std::alloc::Global;
use std::env::Args;
use std::fs::File;
use std::io::Write;
use std::{fs, io};

// No record is longer than this.
const LONGEST: usize = 99_999;

// The file that records are written to, room for one of them, and how many were copied and refused.
#[derive(Drop)]
struct Copying {
    file: File,
    room: Vec<u8>,
    copied: u64,
    refused: u64,
    bytes: u64,
}

impl Copying {
    // Nothing is copied yet.
    fn new(heap: Global, file: File) -> io::Result<Copying> {
        Ok(Copying {
            file,
            room: vec![in heap; 0; LONGEST]?,
            copied: 0,
            refused: 0,
            bytes: 0,
        })
    }
}

// Copies the records of the export in the first file to the second.
pub(crate) fn copy_files(rt: &HostRuntime, mut files: Args) -> anyhow::Result<bool> {
    let (Some(from), Some(to)) = (files.next(), files.next()) else {
        return Ok(false);
    };
    copy_export(rt, &from, &to)
}

// Copies the records of an export to a file that is not there yet. Whether all of the export was read.
fn copy_export(rt: &HostRuntime, from: &str, to: &str) -> anyhow::Result<bool> {
    let Some(export) = or_tell(rt, from, "read", fs::read(rt, from))? else {
        return Ok(false);
    };
    let Some(file) = or_tell(rt, to, "made", File::create_new(rt, to))? else {
        return Ok(false);
    };
    let mut copying = Copying::new(rt.alloc(), file)?;
    let whole = visit_export(rt, from, &export, &mut copying)?;
    let Copying {
        copied,
        refused,
        bytes,
        ..
    } = copying;
    println!(rt; "{copied} records copied, {bytes} bytes; {refused} refused")?;
    Ok(whole)
}

impl Visit for Copying {
    // Copies a record, or prints what is wrong with it.
    fn visit(
        &mut self,
        rt: &HostRuntime,
        position: Position<'_>,
        record: &[u8],
    ) -> anyhow::Result<()> {
        match copy_record(rt.alloc(), record, &mut self.room) {
            Ok(len) => {
                self.copied = self.copied.saturating_add(1);
                self.bytes = self.bytes.saturating_add(len as u64);
                self.file.write_all(&self.room[..len])?;
            }
            Err(Uncopied::Refused(WriteFault::Frame(fault))) => {
                self.refused = self.refused.saturating_add(1);
                tell_fault(rt, position, fault)?;
            }
            Err(why) => return Err(why.into()),
        }
        Ok(())
    }
}

#[cfg(test)]
mod tests {
    use exports::copy::Uncopied;
    use record::writing::WriteFault;

    // What ends a copy keeps its words.
    #[test]
    fn what_ends_a_copy_in_words(rt: HostRuntime) {
        let short = anyhow::Error::from(Uncopied::Refused(WriteFault::ShortBuffer));
        let full = anyhow::Error::from(Uncopied::NoMemory);
        let text = format!(in rt.alloc(); "{short}\n{full}").expect(&rt, "there is memory");
        assert_eq!(rt;
            text.as_str(),
            "no room for a record\nno memory for the fields of a record"
        );
    }
}
