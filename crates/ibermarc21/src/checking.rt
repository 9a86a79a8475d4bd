// The command `check`: the frame of each record.
use crate::files::{Position, Visit, visit_files};
use crate::words::tell_fault;
use exports::totals::Totals;
use record::frame::check;
use std::env::Args;

// Checks the records of the exports in these files. Whether each was read to its end.
pub(crate) fn check_files(rt: &HostRuntime, files: Args) -> anyhow::Result<bool> {
    let mut totals = Totals::new();
    let whole = visit_files(rt, files, &mut totals)?;
    let records = totals.records();
    let Totals { good, bad, bytes } = totals;
    println!(rt; "{records} records: {good} good, {bad} bad; {bytes} bytes")?;
    Ok(whole)
}

impl Visit for Totals {
    // Checks a record, counts it, and prints what is wrong with it.
    fn visit(
        &mut self,
        rt: &HostRuntime,
        position: Position<'_>,
        record: &[u8],
    ) -> anyhow::Result<()> {
        let answer = check(record);
        self.count(record.len(), answer);
        if let Err(fault) = answer {
            tell_fault(rt, position, fault)?;
        }
        Ok(())
    }
}
