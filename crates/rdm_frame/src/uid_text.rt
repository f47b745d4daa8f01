//! UIDs as text: `7FF0:00000001`.

ghost use Rattle.std.specs.Prelude.{◌≡◌, ◌↔◌, Some};
ghost use Rattle.std.specs.Fmt.{padded};
ghost use Rattle.rdm_frame.specs.DigitReading.{uid_in};
ghost use Rattle.rdm_frame.specs.UidText.{uid_text, SpellsUid};

use crate::Uid;
use crate::digits::{digit, long_in, word_in};
use std::fmt;
use std::str::{self, FromStr};
use thiserror::Error;

/// A text isn't a valid UID.
#[derive(Clone, Copy, Debug, PartialEq, Eq, Error)]
#[error("a UID is four hexadecimal digits, a colon and eight hexadecimal digits")]
pub struct UidError;

impl Uid {
    /// The text of this UID: the four digits of its manufacturer ID, a colon and the eight digits of its device ID, in
    /// upper case.
    pub fn text(&self) -> [u8; 13]
        ensures { result ≡ uid_text self.now }
    {
        let [a, b] = self.maker.to_be_bytes();
        let [c, d, e, f] = self.device.to_be_bytes();
        [
            digit(a / 16),
            digit(a % 16),
            digit(b / 16),
            digit(b % 16),
            b':',
            digit(c / 16),
            digit(c % 16),
            digit(d / 16),
            digit(d % 16),
            digit(e / 16),
            digit(e % 16),
            digit(f / 16),
            digit(f % 16),
        ]
    }

    /// The UID that a text spells, in digits of either case, or `None` if it isn't a valid UID.
    #[tactic(auto, using(crate::proofs::NumberSpellings::uid_spelled))]
    pub fn from_text(text: &[u8]) -> Option<Uid>
        ensures value { result ≡ uid_in text.now }
        ensures spelled { (u : Uid) → (result ≡ Some u) ↔ SpellsUid text.now u }
    {
        uid_in(text)
    }
}

/// Four digits, a colon, eight digits.
#[tactic(auto, unfolding(crate::specs::DigitReading::uid_in, crate::specs::DigitReading::number_in))]
fn uid_in(text: &[u8]) -> Option<Uid>
    ensures { result ≡ uid_in text.now }
{
    if text.len() != 13 || text[4] != b':' {
        return None;
    }
    Some(Uid {
        maker: word_in(&text[..4])?,
        device: long_in(&text[5..])?,
    })
}

impl fmt::Display for Uid {
    ghost output = { λ uid. Some (uid_text uid) };

    ghost styled_output = { λ uid spec. Some (padded spec (uid_text uid)) };

    fn fmt<W: fmt::Write>(&self, f: &mut fmt::Formatter<W>) -> fmt::Result {
        f.pad(str::from_utf8(&self.text()).map_err(|_| fmt::Error)?)
    }
}

impl FromStr for Uid {
    type Err = UidError;

    ghost use Rattle.std.specs.Prelude.{Ok};
    ghost use Rattle.rdm_frame.specs.declared.uid.Uid.{Uid as TheUid};

    ghost from_str_gives = { λ text result. (u : TheUid) → (result ≡ Ok u) ↔ SpellsUid text u };

    fn from_str(text: &str) -> Result<Uid, UidError> {
        Uid::from_text(text.as_bytes()).ok_or(UidError)
    }
}
