// Refusals in words.
use crate::files::Position;
use record::faults::{FrameFault, Refusal, Values};
use std::io;

// Prints which record is refused, and why.
pub(crate) fn tell_fault(
    rt: &HostRuntime,
    position: Position<'_>,
    fault: FrameFault,
) -> io::Result<()> {
    let Values { number, place, .. } = fault.values();
    println!(rt; "{position}: refused, {number} at {place}: {fault}")
}
