// The shipped formats answer from their rows.
ghost use Rattle.rows.specs.Shipped.{rows_of};
ghost use Rattle.rows.proofs.Passing.{shipped_sound};

use crate::format::RowFormat;
use rows::rows::FormatRows;
use rows::shipped::Shipped;

impl RowFormat for Shipped {
    ghost rows = { rows_of };

    ghost passes = { shipped_sound };

    fn format_rows(&self) -> FormatRows<'_> {
        self.rows()
    }
}
