// What every format answers.
ghost use Rattle.std.specs.Prelude.{◌≡◌, true};
ghost use Rattle.rows.specs.Faults.{sound};
ghost use Rattle.rows.specs.Rows.{PlainRows, seen_rows, table};
ghost use Rattle.rows.specs.Table.{Lawful, Table};
ghost use Rattle.rows.proofs.Laws.{rows_lawful};

use rows::occurs::Occurs;
use rows::rows::FormatRows;

// A format answers four questions, about any numbers, and a question leaves it as it is.
pub trait Format {
    // The meaning of a format: the table of its answers.
    ghost meaning: { Self → Table };

    // The laws that bind every format.
    ghost lawful: { (f : Self) → Lawful (meaning f) };

    // Is this code admitted at this position of the leader?
    fn admits_code(&self, position: usize, code: u8) -> bool
        ensures { result ≡ (meaning self.now).leader position code };

    // Is this tag absent, allowed once, or many times?
    fn tag_occurs(&self, tag: u16) -> Occurs
        ensures { result ≡ (meaning self.now).occurs tag };

    // Is this code admitted as indicator 1 or 2 of this tag?
    fn admits_indicator(&self, tag: u16, indicator: u8, code: u8) -> bool
        ensures { result ≡ (meaning self.now).indicator tag indicator code };

    // Is this subfield code of this tag absent, allowed once, or many times?
    fn subfield_occurs(&self, tag: u16, code: u8) -> Occurs
        ensures { result ≡ (meaning self.now).subfield tag code };
}

// A format that answers from its rows, which pass the row check.
pub trait RowFormat {
    // Its rows, as they are seen.
    ghost rows: { Self → PlainRows };

    // They pass the row check.
    ghost passes: { (f : Self) → sound (rows f) ≡ true };

    // Its rows.
    fn format_rows(&self) -> FormatRows<'_>
        ensures { seen_rows result ≡ rows self.now };
}

impl<R: RowFormat> Format for R {
    ghost meaning = { λ f. table (R.RowFormat.rows f) };

    ghost lawful = { λ f. rows_lawful (R.RowFormat.rows f) (R.RowFormat.passes f) };

    fn admits_code(&self, position: usize, code: u8) -> bool {
        self.format_rows().admits_code(position, code)
    }

    fn tag_occurs(&self, tag: u16) -> Occurs {
        self.format_rows().tag_occurs(tag)
    }

    fn admits_indicator(&self, tag: u16, indicator: u8, code: u8) -> bool {
        self.format_rows().admits_indicator(tag, indicator, code)
    }

    fn subfield_occurs(&self, tag: u16, code: u8) -> Occurs {
        self.format_rows().subfield_occurs(tag, code)
    }
}
