//! From words to the data of a command.

ghost use Rattle.std.specs.Prelude.{◌≡◌, map};
ghost use Rattle.rdm_entry.specs.Entries.{data_in};

use crate::Field;
use crate::error::{EntryError, Wrong};
use crate::word::said;
use rdm_frame::Load;
use rdm_frame::standard::MOST_DATA;

/// The data that words say for fields, one word a field, or the first word that is wrong.
///
/// A number may be written in decimal digits, in hexadecimal ones behind `0x`, or by its name. Decimal digits with a zero in front are
/// refused if they are another number in hexadecimal digits.
#[tactic(auto, unfolding(crate::specs::Entries::data_in))]
pub fn data_in(fields: &[Field], words: &[&str]) -> Result<Load, EntryError>
    ensures { result ≡ data_in fields.now (map (λ word. word.now) words.now) }
{
    let mut slots = Load::new();
    let mut index = 0;
    let (mut rest, mut left) = (fields, words);
    while let [field, more @ ..] = rest {
        let [word, others @ ..] = left else {
            return Err(at(index, Wrong::Missing));
        };
        let front = match said(*field, word.as_bytes()) {
            Ok(front) => front,
            Err(wrong) => return Err(at(index, wrong)),
        };
        if front.as_slice().len() > MOST_DATA - slots.as_slice().len() {
            return Err(at(index, Wrong::NoRoom));
        }
        slots.append(front.as_slice());
        index += 1;
        rest = more;
        left = others;
    }
    if left.is_empty() {
        Ok(slots)
    } else {
        Err(at(index, Wrong::Surplus))
    }
}

/// The word at this index is wrong.
fn at(index: usize, wrong: Wrong) -> EntryError
    ensures { result ≡ record { index = index; wrong = wrong } }
{
    EntryError { index, wrong }
}
