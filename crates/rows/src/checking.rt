// The row check.
ghost use Rattle.std.specs.Prelude.{◌≡◌, map};
ghost use Rattle.record.specs.Rules.{verdict};
ghost use Rattle.rows.specs.Faults.{leader_faults, row_faults, row_rule, rows_faults, tag_faults, tag_rule};
ghost use Rattle.rows.specs.Rows.{seen_row, seen_rows, seen_sets};
ghost use Rattle.rows.specs.Sets.{some_characters, subfield_codes};

use crate::faults::RowFault;
use crate::occurs::Occurs;
use crate::rows::{FormatRows, Row};
use record::classes::{is_code_character, is_subfield_code};
use record::leader::positions;

// Whether the set has only subfield codes.
fn are_subfield_codes(set: &[u8]) -> bool
    ensures { result ≡ subfield_codes set.now }
{
    set.iter().all(|code| is_subfield_code(*code))
}

// Whether the set has some codes of a leader position or an indicator, and no others.
fn are_some_characters(set: &[u8]) -> bool
    ensures { result ≡ some_characters set.now }
{
    !set.is_empty() && set.iter().all(|code| is_code_character(*code))
}

// Whether the tag is from 1 to 999 and above the one before.
fn tag_holds(before: u16, tag: u16) -> bool
    ensures { result ≡ tag_rule before tag }
{
    before < tag && tag <= 999
}

// Whether the row has the sets that its tag asks for.
fn row_holds(row: &Row) -> bool
    ensures { result ≡ row_rule (seen_row row.now) }
{
    match (row.occurs, row.tag) {
        (Occurs::Absent, _) => false,
        (_, 10..=999) => {
            are_some_characters(row.first)
                && are_some_characters(row.second)
                && are_subfield_codes(row.once)
                && are_subfield_codes(row.many)
        }
        _ => {
            row.first.is_empty()
                && row.second.is_empty()
                && row.once.is_empty()
                && row.many.is_empty()
        }
    }
}

// The first fault among the tags, or none.
fn check_tags(rows: &[Row]) -> Result<(), RowFault>
    ensures { result ≡ verdict (tag_faults (map seen_row rows.now)) tt }
{
    let mut before = 0;
    for (k, row) in rows.iter().enumerate() {
        if !tag_holds(before, row.tag) {
            return Err(RowFault::Tag { row: k });
        }
        before = row.tag;
    }
    Ok(())
}

// The first fault among the rows, or none.
fn check_rows(rows: &[Row]) -> Result<(), RowFault>
    ensures { result ≡ verdict (row_faults (map seen_row rows.now)) tt }
{
    match rows.iter().position(|row| !row_holds(row)) {
        Some(row) => Err(RowFault::Row { row }),
        None => Ok(()),
    }
}

// The first fault among the leader sets, or none.
fn check_leader(sets: &[&[u8]; 8]) -> Result<(), RowFault>
    ensures { result ≡ verdict (leader_faults (seen_sets sets.now)) tt }
{
    let mut placed = positions().iter().zip(sets);
    match placed.find(|(_, set)| !are_some_characters(set)) {
        Some((position, _)) => Err(RowFault::Leader {
            position: *position,
        }),
        None => Ok(()),
    }
}

impl<'a> FormatRows<'a> {
    // The first fault of the rows, of a tag, then of a row, then of a leader set; or none.
    pub fn check(&self) -> Result<(), RowFault>
        ensures { result ≡ verdict (rows_faults (seen_rows self.now)) tt }
    {
        check_tags(self.rows)?;
        check_rows(self.rows)?;
        check_leader(&self.leader)
    }
}
