// How often a tag or a subfield may occur.
ghost use Rattle.std.specs.Prelude.{◌≡◌};
ghost use Rattle.rows.specs.Table.{only_once, present};

#[derive(Clone, Copy, PartialEq, Eq, Debug)]
pub enum Occurs {
    Absent,
    Once,
    Many,
}

impl Occurs {
    // Whether it may occur at all.
    pub fn is_present(self) -> bool
        ensures { result ≡ present self }
    {
        self != Occurs::Absent
    }

    // Whether it may occur, but not twice.
    pub fn is_once(self) -> bool
        ensures { result ≡ only_once self }
    {
        self == Occurs::Once
    }
}
