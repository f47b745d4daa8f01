//! The numbers that the slots of a parameter say.

ghost use Rattle.std.specs.Prelude.{◌≡◌, ◌≤◌};
ghost use Rattle.rdm_profile.specs.Fields.{width_of, reach_of};

/// How many slots a number has.
#[derive(Clone, Copy, Debug, PartialEq, Eq)]
pub enum Width {
    /// One slot: 0 to 255.
    One,
    /// Two slots: 0 to 65,535.
    Two,
    /// Four slots: 0 to 4,294,967,295.
    Four,
}

impl Width {
    /// How many slots these are: 1, 2 or 4.
    pub fn slots(self) -> usize
        ensures slots { result ≡ width_of self }
        ensures few { result ≤ 4 }
    {
        match self {
            Width::One => 1,
            Width::Two => 2,
            Width::Four => 4,
        }
    }

    /// How many numbers they can say.
    pub fn reach(self) -> u64
        ensures { result ≡ reach_of self }
    {
        match self {
            Width::One => 0x100,
            Width::Two => 0x1_0000,
            Width::Four => 0x1_0000_0000,
        }
    }
}

/// One of the numbers that the slots of a parameter say, one after another, most significant byte first (E1.20 section 6.2.10).
#[derive(Clone, Copy, Debug, PartialEq, Eq)]
pub struct Field {
    /// How many slots it has.
    pub width: Width,
    /// The least number that it can be.
    pub low: u32,
    /// The greatest number that it can be.
    pub high: u32,
    /// One more number that it can be, such as 0xFFFF for a time without end; where there is none, one of its range again.
    pub also: u32,
}
