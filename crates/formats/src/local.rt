// A library's own format, over the rows that it holds.
ghost use Rattle.std.specs.Prelude.{◌≡◌, true};
ghost use Rattle.record.specs.Rules.{verdict};
ghost use Rattle.rows.specs.Faults.{bare as bare_rows, opened, rows_faults, sound};
ghost use Rattle.rows.specs.Rows.{seen_rows};

use crate::format::RowFormat;
use rows::faults::RowFault;
use rows::rows::FormatRows;

// The format of a library's rows where they pass the row check, and else the bare format: blank at every code position and no field.
#[derive(Clone, Copy)]
pub struct LocalFormat<'a> {
    rows: FormatRows<'a>,
    checked: Result<(), RowFault>,
    ghost passes: { sound (seen_rows rows) ≡ true },
}

// The rows of the bare format.
fn bare<'a>() -> FormatRows<'a>
    ensures { seen_rows result ≡ bare_rows }
{
    FormatRows {
        leader: [b" "; 8],
        rows: &[],
    }
}

impl<'a> LocalFormat<'a> {
    // The format of these rows, or the bare one where the row check turns them down.
    pub fn open(rows: FormatRows<'a>) -> LocalFormat<'a>
        ensures rows { seen_rows result.rows ≡ opened (seen_rows rows.entry) }
        ensures checked { result.checked ≡ verdict (rows_faults (seen_rows rows.entry)) tt }
    {
        let checked = rows.check();
        if checked.is_ok() {
            return LocalFormat { rows, checked };
        }
        LocalFormat {
            rows: bare(),
            checked,
        }
    }

    // Which it is: the format of the rows it was opened over, or the bare one, and then why.
    pub fn checked(&self) -> Result<(), RowFault>
        ensures { result ≡ self.now.checked }
    {
        self.checked
    }
}

impl<'a> RowFormat for LocalFormat<'a> {
    ghost rows = { λ f. seen_rows f.rows };

    ghost passes = { λ f. f.passes };

    fn format_rows(&self) -> FormatRows<'_> {
        self.rows
    }
}
