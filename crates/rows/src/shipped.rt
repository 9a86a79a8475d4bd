// The shipped formats: a row for each tag, to be read beside the published tables. A blank in a set is the blank, #.
ghost use Rattle.std.specs.Prelude.{◌≡◌};
ghost use Rattle.rows.specs.Rows.{seen_rows};
ghost use Rattle.rows.specs.Shipped.{rows_of};

use crate::occurs::Occurs::{Many, Once};
use crate::rows::{FormatRows, Row};

// The formats that come with the converter: source is what records come in, target what they go to.
#[derive(Clone, Copy, PartialEq, Eq, Debug)]
pub enum Shipped {
    BibliographicSource,
    BibliographicTarget,
    AuthoritySource,
    AuthorityTarget,
}

#[rattlefmt::skip]
const BIBLIOGRAPHIC_SOURCE: FormatRows<'static> = FormatRows {
    leader: [
        b"acdnp",          // 05
        b"acdefgijkmoprt", // 06
        b"abcdms",         // 07
        b" a",             // 08
        b" a78",           // 09
        b" 1234578uz",     // 17
        b"abiu",           // 18
        b" r",             // 19
    ],
    rows: &[
        Row { tag:   1, occurs: Once, first: b"",    second: b"",    once: b"",         many: b""           },
        Row { tag:   5, occurs: Once, first: b"",    second: b"",    once: b"",         many: b""           },
        Row { tag:   7, occurs: Many, first: b"",    second: b"",    once: b"",         many: b""           },
        Row { tag:   8, occurs: Once, first: b"",    second: b"",    once: b"",         many: b""           },
        Row { tag: 100, occurs: Once, first: b"013", second: b" ",   once: b"aghl",     many: b"kmn"        },
        Row { tag: 270, occurs: Many, first: b" 12", second: b" 07", once: b"bcdefghi", many: b"ajklmnpqrz" },
    ],
};

#[rattlefmt::skip]
const BIBLIOGRAPHIC_TARGET: FormatRows<'static> = FormatRows {
    leader: [
        b"acdnp",          // 05
        b"acdefgijkmoprt", // 06
        b"abcdims",        // 07: i too
        b" a",             // 08
        b" a",             // 09: not 7, 8
        b" 1234578uz",     // 17
        b" aciu",          // 18: # and c for b
        b" abc",           // 19: a, b, c for r
    ],
    rows: &[
        Row { tag:   1, occurs: Once, first: b"",    second: b"",    once: b"",         many: b""           },
        Row { tag:   5, occurs: Once, first: b"",    second: b"",    once: b"",         many: b""           },
        Row { tag:   7, occurs: Many, first: b"",    second: b"",    once: b"",         many: b""           },
        Row { tag:   8, occurs: Once, first: b"",    second: b"",    once: b"",         many: b""           },
        // the source has no 066
        Row { tag:  66, occurs: Once, first: b" ",   second: b" ",   once: b"ab",       many: b"c"          },
        // no h, no m
        Row { tag: 100, occurs: Once, first: b"013", second: b" ",   once: b"agl",      many: b"kn"         },
        Row { tag: 270, occurs: Many, first: b" 12", second: b" 07", once: b"bcdefghi", many: b"ajklmnpqrz" },
    ],
};

#[rattlefmt::skip]
const AUTHORITY_SOURCE: FormatRows<'static> = FormatRows {
    leader: [
        b"acdnsx", // 05
        b"z",      // 06
        b" ",      // 07
        b" ",      // 08
        b" ",      // 09
        b"no",     // 17
        b" ",      // 18
        b" ",      // 19
    ],
    rows: &[
        Row { tag:   1, occurs: Once, first: b"",    second: b"",  once: b"",    many: b""     },
        Row { tag:   3, occurs: Once, first: b"",    second: b"",  once: b"",    many: b""     },
        Row { tag:   5, occurs: Once, first: b"",    second: b"",  once: b"",    many: b""     },
        Row { tag:   8, occurs: Once, first: b"",    second: b"",  once: b"",    many: b""     },
        Row { tag:  80, occurs: Many, first: b"012", second: b" ", once: b"ac",  many: b""     },
        Row { tag: 185, occurs: Once, first: b" ",   second: b" ", once: b"6",   many: b"jxyz" },
        Row { tag: 640, occurs: Many, first: b"01",  second: b" ", once: b"6az", many: b""     },
    ],
};

#[rattlefmt::skip]
const AUTHORITY_TARGET: FormatRows<'static> = FormatRows {
    leader: [
        b"acdnosx", // 05: o too
        b"z",       // 06
        b" ",       // 07
        b" ",       // 08
        b" a",      // 09: a too
        b"no",      // 17
        b" ",       // 18
        b" ",       // 19
    ],
    rows: &[
        Row { tag:   1, occurs: Once, first: b"",    second: b"",  once: b"",    many: b""      },
        Row { tag:   3, occurs: Once, first: b"",    second: b"",  once: b"",    many: b""      },
        Row { tag:   5, occurs: Once, first: b"",    second: b"",  once: b"",    many: b""      },
        Row { tag:   8, occurs: Once, first: b"",    second: b"",  once: b"",    many: b""      },
        // first # for 2, no c
        Row { tag:  80, occurs: Many, first: b" 01", second: b" ", once: b"a",   many: b""      },
        // v for j, 8 too
        Row { tag: 185, occurs: Once, first: b" ",   second: b" ", once: b"6",   many: b"8vxyz" },
        // 8 too
        Row { tag: 640, occurs: Many, first: b"01",  second: b" ", once: b"6az", many: b"8"     },
    ],
};

impl Shipped {
    pub fn rows(self) -> FormatRows<'static>
        ensures { seen_rows result ≡ rows_of self }
    {
        match self {
            Shipped::BibliographicSource => BIBLIOGRAPHIC_SOURCE,
            Shipped::BibliographicTarget => BIBLIOGRAPHIC_TARGET,
            Shipped::AuthoritySource => AUTHORITY_SOURCE,
            Shipped::AuthorityTarget => AUTHORITY_TARGET,
        }
    }
}
