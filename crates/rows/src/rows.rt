// Rows of tags, and the answers that they give.
ghost use Rattle.std.specs.Prelude.{◌≡◌, option_map};
ghost use Rattle.rows.specs.Rows.{indicator_set, row_of, seen_row, seen_rows, subfield_in, table};
ghost use Rattle.rows.specs.Sets.{has};

use crate::occurs::Occurs;

// What a format says of one tag: how often it may occur, the codes of its first and of its second indicator, and its
// subfield codes, those allowed once and those allowed many times. A control tag has no codes.
#[derive(Clone, Copy)]
pub struct Row<'a> {
    pub tag: u16,
    pub occurs: Occurs,
    pub first: &'a [u8],
    pub second: &'a [u8],
    pub once: &'a [u8],
    pub many: &'a [u8],
}

// A format by its rows: the codes of the eight code positions of the leader, 5 to 9 and 17 to 19, and a row for each tag.
#[derive(Clone, Copy)]
pub struct FormatRows<'a> {
    pub leader: [&'a [u8]; 8],
    pub rows: &'a [Row<'a>],
}

impl<'a> Row<'a> {
    // Whether `code` is one of the codes of indicator 1 or 2.
    fn admits_indicator(&self, indicator: u8, code: u8) -> bool
        ensures { result ≡ has (indicator_set (seen_row self.now) indicator) code }
    {
        match indicator {
            1 => self.first.contains(&code),
            2 => self.second.contains(&code),
            _ => false,
        }
    }

    // How often a subfield with this code may occur. A code that stands in both sets is allowed many times.
    fn subfield_occurs(&self, code: u8) -> Occurs
        ensures { result ≡ subfield_in (seen_row self.now) code }
    {
        if self.many.contains(&code) {
            Occurs::Many
        } else if self.once.contains(&code) {
            Occurs::Once
        } else {
            Occurs::Absent
        }
    }
}

impl<'a> FormatRows<'a> {
    // The row of `tag`, where there is one.
    fn find(&self, tag: u16) -> Option<&'a Row<'a>>
        ensures { option_map (λ row. seen_row row.now) result ≡ row_of (seen_rows self.now).rows tag }
    {
        self.rows.iter().find(|row| row.tag == tag)
    }

    // Whether `code` is admitted at this position of the leader.
    pub fn admits_code(&self, position: usize, code: u8) -> bool
        ensures { result ≡ (table (seen_rows self.now)).leader position code }
    {
        match position {
            5..=9 => self.leader[position - 5].contains(&code),
            17..=19 => self.leader[position - 12].contains(&code),
            _ => false,
        }
    }

    // How often `tag` may occur.
    pub fn tag_occurs(&self, tag: u16) -> Occurs
        ensures { result ≡ (table (seen_rows self.now)).occurs tag }
    {
        self.find(tag).map_or(Occurs::Absent, |row| row.occurs)
    }

    // Whether `code` is admitted as indicator 1 or 2 of `tag`.
    pub fn admits_indicator(&self, tag: u16, indicator: u8, code: u8) -> bool
        ensures { result ≡ (table (seen_rows self.now)).indicator tag indicator code }
    {
        self.find(tag)
            .is_some_and(|row| row.admits_indicator(indicator, code))
    }

    // How often a subfield of `tag` with this code may occur.
    pub fn subfield_occurs(&self, tag: u16, code: u8) -> Occurs
        ensures { result ≡ (table (seen_rows self.now)).subfield tag code }
    {
        self.find(tag)
            .map_or(Occurs::Absent, |row| row.subfield_occurs(code))
    }
}
