// The walk over an export: each record in turn, as long as its first five digits say.
ghost use Rattle.std.specs.Prelude.{◌≡◌, ◌≤◌, length, IfOk, Some};
ghost use Rattle.exports.specs.Walk.{Steps, Walks, length_of, rest};
ghost use Rattle.exports.specs.Words.{stop_text, unread_text};
ghost use Rattle.std.specs.Iterator.{at_most};

use record::figures::told_length;
use std::error::Error;
use std::fmt;

// Why no record can be taken from the rest of an export.
#[derive(Clone, Copy, Debug, PartialEq, Eq)]
pub enum Unread {
    // no five digits stand there, or they tell less than their own length
    NoLength,
    // the export ends before a record of the told length does
    Torn { told: usize },
}

impl fmt::Display for Unread {
    ghost output = { λ why. Some (unread_text why) };

    fn fmt<W: fmt::Write>(&self, f: &mut fmt::Formatter<W>) -> fmt::Result {
        match *self {
            Unread::NoLength => f.write_str(
                "no length of a record in five digits; the rest of the file is not read",
            ),
            Unread::Torn { told } => {
                write!(f, "the file ends before the {told} bytes of the record do")
            }
        }
    }
}

impl Error for Unread {}

// Where a walk stopped, and why.
#[derive(Clone, Copy, Debug, PartialEq, Eq)]
pub struct Stop {
    pub place: usize,
    pub why: Unread,
}

impl fmt::Display for Stop {
    ghost output = { λ stop. Some (stop_text stop) };

    fn fmt<W: fmt::Write>(&self, f: &mut fmt::Formatter<W>) -> fmt::Result {
        let Stop { place, why } = *self;
        write!(f, "at byte {place}: {why}")
    }
}

impl Error for Stop {}

// A record of an export, and the byte where it begins.
#[derive(Clone, Copy, Debug, PartialEq, Eq)]
pub struct Offered<'a> {
    pub place: usize,
    pub bytes: &'a [u8],
}

// The records of an export that are still to come.
#[derive(Clone, Copy, Debug)]
pub struct Records<'a> {
    export: &'a [u8],
    place: usize,
}

// The length of the record that begins the rest of an export.
pub fn record_length(rest: &[u8]) -> Result<usize, Unread>
    ensures value { result ≡ length_of rest.now }
    ensures within { IfOk result (λ n. (5 ≤ n) × (n ≤ length rest.now)) }
{
    let told = told_length(rest).ok_or(Unread::NoLength)?;
    if told < 5 {
        Err(Unread::NoLength)
    } else if rest.len() < told {
        Err(Unread::Torn { told })
    } else {
        Ok(told)
    }
}

impl<'a> Records<'a> {
    // The records of an export, from its first byte on.
    pub fn new(export: &'a [u8]) -> Records<'a>
        ensures place { result.place ≡ 0 }
        ensures whole { rest result ≡ export.now }
        ensures walks { Walks export.now result }
    {
        Records { export, place: 0 }
    }
}

impl<'a> Iterator for Records<'a> {
    type Item = Result<Offered<'a>, Stop>;

    ghost next_gives = { Steps };

    ghost remaining = { λ s. at_most (length (rest s)) };

    fn next(&mut self) -> Option<Result<Offered<'a>, Stop>> {
        let place = self.place;
        if place >= self.export.len() {
            return None;
        }
        let rest = &self.export[place..];
        match record_length(rest) {
            Ok(len) => {
                self.place += len;
                let bytes = &rest[..len];
                Some(Ok(Offered { place, bytes }))
            }
            Err(why) => {
                self.place = self.export.len();
                Some(Err(Stop { place, why }))
            }
        }
    }
}

#[cfg(test)]
mod tests {
    use super::{Offered, Records, Stop, Unread};

    fn first_stop(export: &[u8]) -> Option<Stop> {
        Records::new(export).find_map(Result::err)
    }

    #[test]
    fn takes_records_by_their_digits(rt: HostRuntime) {
        let mut records = Records::new(b"00007ab00005");
        let first = Offered {
            place: 0,
            bytes: b"00007ab",
        };
        let second = Offered {
            place: 7,
            bytes: b"00005",
        };
        assert_eq!(rt; records.next(), Some(Ok(first)));
        assert_eq!(rt; records.next(), Some(Ok(second)));
        assert_eq!(rt; records.next(), None);
    }

    #[test]
    fn stops_where_no_record_begins(rt: HostRuntime) {
        let stop = |why| Some(Stop { place: 7, why });
        assert_eq!(rt; first_stop(b""), None);
        assert_eq!(rt; first_stop(b"00007ab0000x"), stop(Unread::NoLength));
        assert_eq!(rt; first_stop(b"00007ab0000"), stop(Unread::NoLength));
        assert_eq!(rt; first_stop(b"00007ab00004"), stop(Unread::NoLength));
        assert_eq!(rt; first_stop(b"00007ab00006"), stop(Unread::Torn { told: 6 }));
    }

    // The words for each stop.
    #[test]
    fn a_stop_in_words(rt: HostRuntime) {
        let no_length = Stop {
            place: 7,
            why: Unread::NoLength,
        };
        let torn = Stop {
            place: 7,
            why: Unread::Torn { told: 46 },
        };
        let text = format!(in rt.alloc(); "{no_length}\n{torn}").expect(&rt, "there is memory");
        assert_eq!(rt;
            text.as_str(),
            "at byte 7: no length of a record in five digits; the rest of the file is not read\nat byte 7: the file ends before the 46 bytes of the record do"
        );
    }
}
