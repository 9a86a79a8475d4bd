// The two indicators of a data field.
ghost use Rattle.std.specs.Prelude.{◌≡◌};
ghost use Rattle.formats.specs.Indicators.{number_of_indicator};

// Which of them.
#[derive(Clone, Copy, Debug, PartialEq, Eq)]
pub enum WhichIndicator {
    First,
    Second,
}

impl From<WhichIndicator> for u8 {
    ghost from_gives = { λ which n. n ≡ number_of_indicator which };

    // 1 or 2.
    fn from(which: WhichIndicator) -> u8
        ensures { result ≡ number_of_indicator which }
    {
        match which {
            WhichIndicator::First => 1,
            WhichIndicator::Second => 2,
        }
    }
}
