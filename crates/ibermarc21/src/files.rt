// Exports in files: each record in turn goes to a command.
use exports::walk::{Offered, Records, Stop};
use std::env::Args;
use std::{fmt, fs, io};

// Where a record stands: in which file, which one it is, and at which byte it begins.
#[derive(Clone, Copy, Debug)]
pub(crate) struct Position<'a> {
    name: &'a str,
    ordinal: usize,
    byte: usize,
}

impl fmt::Display for Position<'_> {
    fn fmt<W: fmt::Write>(&self, f: &mut fmt::Formatter<W>) -> fmt::Result {
        let Position {
            name,
            ordinal,
            byte,
        } = *self;
        write!(f, "{name}: record {ordinal} at byte {byte}")
    }
}

// What a command does with each record.
pub(crate) trait Visit {
    fn visit(
        &mut self,
        rt: &HostRuntime,
        position: Position<'_>,
        record: &[u8],
    ) -> anyhow::Result<()>;
}

// Takes the records of the exports in these files in turn. Whether each was read to its end.
pub(crate) fn visit_files(
    rt: &HostRuntime,
    names: Args,
    visitor: &mut impl Visit,
) -> anyhow::Result<bool> {
    let mut whole = true;
    for name in names {
        whole = visit_file(rt, &name, visitor)? && whole;
    }
    Ok(whole)
}

// Takes the records of the export in a file. Whether it was read to its end.
fn visit_file(rt: &HostRuntime, name: &str, visitor: &mut impl Visit) -> anyhow::Result<bool> {
    let Some(export) = or_tell(rt, name, "read", fs::read(rt, name))? else {
        return Ok(false);
    };
    visit_export(rt, name, &export, visitor)
}

// What was opened, or none where that failed, which is printed.
pub(crate) fn or_tell<T: Drop>(
    rt: &HostRuntime,
    name: &str,
    deed: &str,
    opened: io::Result<T>,
) -> io::Result<Option<T>> {
    match opened {
        Ok(file) => Ok(Some(file)),
        Err(error) => {
            eprintln!(rt; "ibermarc21: {name}: cannot be {deed}: {error}")?;
            Ok(None)
        }
    }
}

// Takes the records of an export up to the first that cannot be taken.
pub(crate) fn visit_export(
    rt: &HostRuntime,
    name: &str,
    export: &[u8],
    visitor: &mut impl Visit,
) -> anyhow::Result<bool> {
    for (index, found) in Records::new(export).enumerate() {
        let at = |byte| Position {
            name,
            ordinal: index + 1,
            byte,
        };
        match found {
            Ok(Offered { place, bytes }) => visitor.visit(rt, at(place), bytes)?,
            Err(Stop { place, why }) => {
                let position = at(place);
                eprintln!(rt; "ibermarc21: {position}: {why}")?;
                return Ok(false);
            }
        }
    }
    Ok(true)
}
