//! Names as C has them: with a NUL behind each.

ghost use Rattle.std.specs.Prelude.{◌≡◌, None, IfSome, option_map};
ghost use Rattle.rdm_frame.specs.Names.{for_c, name_in};
ghost use Rattle.rdm_c.specs.Names.{results, named};

/// A name that lasts as long as the program. The header calls it `felosumay_name`.
#[repr(C)]
pub struct NameNumbers {
    /// The letters, and a NUL behind them. The length counts both.
    pub letters: &'static [u8],
}

impl NameNumbers {
    /// Tells a name, or that there is none.
    pub(crate) fn tell(&mut self, name: Option<&'static [u8]>)
        ensures there { IfSome name.entry (λ text. self.new.letters.now ≡ text.now) }
        ensures none { name.entry ≡ None → self.new.letters.now ≡ named None }
    {
        self.letters = match name {
            Some(name) => name,
            None => b"unknown\0",
        };
    }
}

/// The results, a row each: the code, and its name in the header behind `FELOSUMAY_`.
macro_rules! result_rows {
    ($use:ident!($argument:ident)) => {
        $use! {
            ($argument)
            (0 "DONE")
            (1 "OUT_OF_MEMORY")
            (2 "BAD_PROFILE")
            (3 "BAD_SIZE")
            (4 "BAD_UID")
            (5 "ABSENT")
            (6 "ASTRAY")
            (7 "UNKNOWN")
            (8 "REFUSED")
            (9 "NO_VALUE")
            (10 "RESERVED")
            (11 "BUSY")
            (12 "TOO_LONG")
            (13 "NO_MORE")
            (14 "NO_ROOM")
            (15 "OUT_OF_RANGE")
            (16 "LIMIT")
            (17 "NO_DEVICE")
            (18 "NOT_STORED")
            (19 "BAD_LENGTH")
            (20 "SHORT_IMAGE")
            (21 "IMAGE_LENGTH")
            (22 "ALTERED_IMAGE")
            (23 "FOREIGN_IMAGE")
            (24 "NO_REPLY")
            (25 "IN_USE")
            (26 "UNALIGNED")
            (27 "SHORT_MEMORY")
            (28 "NO_IMAGE")
            (29 "FLASH_FAILED")
        }
    };
}

macro_rules! names_for_c {
    (($code:ident) $(($number:literal $text:literal))*) => {
        match $code {
            $($number => Some(concat!($text, "\0").as_bytes()),)*
            _ => None,
        }
    };
}

/// The name of a result, with a NUL behind it, or `None` if no call answers with this code.
pub(crate) fn result_name(code: u8) -> Option<&'static [u8]>
    ensures { option_map (λ text. text.now) result ≡ option_map for_c (name_in results code) }
{
    result_rows!(names_for_c!(code))
}
