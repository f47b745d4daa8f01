//! Laws of words and the numbers that they say. Each is the contract of a call that does nothing.

ghost use Rattle.std.specs.Prelude.{◌≡◌, ◌≢◌, ◌<◌, ◌≤◌, ℕ, List, Ok, Err, Some, length, slice_index};
ghost use Rattle.std.specs.Fmt.{decimal};
ghost use Rattle.std.specs.Str.Parse.{AllDigits, digits_value};
ghost use Rattle.rdm_profile.specs.Fields.{reach_of};
ghost use Rattle.rdm_entry.specs.declared.field.Field.{Field as TheField};
ghost use Rattle.rdm_entry.specs.Entries.{data_in};
ghost use Rattle.rdm_entry.specs.Plain.{words_of};
ghost use Rattle.rdm_entry.specs.Slots.{CanHave};
ghost use Rattle.rdm_entry.specs.Words.{slots_of, said};

use crate::{Field, Wrong};
use rdm_device::Width;
use rdm_standard_names::Table;

/// What is printed of a number in decimal digits says this number, for each field that can say it, whatever names are in its table.
#[tactic(auto, using(crate::proofs::Printed::read_back, crate::proofs::Printed::read_back_named))]
pub fn printed_numbers_are_read_back()
    ensures plain { (width : Width) → (n : ℕ) → n < reach_of width → said (Field.Number width) (decimal n) ≡ Ok (slots_of width n) }
    ensures named { (width : Width) → (names : Table) → (n : ℕ) → n < reach_of width → said (Field.Named width names) (decimal n) ≡ Ok (slots_of width n) }
{}

/// Digits with a zero in front that are one number in decimal and another in hexadecimal say neither.
#[tactic(auto, using(crate::proofs::Printed::refused, crate::proofs::Printed::refused_named))]
pub fn unclear_digits_are_refused()
    ensures plain { (width : Width) → (word : List ℕ) → AllDigits 10 word → length word ≤ 10 → slice_index word 0 ≡ 48
        → digits_value 10 word ≢ digits_value 16 word → said (Field.Number width) word ≡ Err Wrong.Unclear }
    ensures named { (width : Width) → (names : Table) → (word : List ℕ) → AllDigits 10 word → length word ≤ 10 → slice_index word 0 ≡ 48
        → digits_value 10 word ≢ digits_value 16 word → said (Field.Named width names) word ≡ Err Wrong.Unclear }
{}

/// Data that words say have the slots of their fields: no fewer than the least number of these, and no more than the greatest.
pub fn data_have_the_slots_of_their_fields()
    ensures { (fields : List TheField) → (words : List (List ℕ)) → (slots : List ℕ) → data_in fields words ≡ Ok slots → CanHave fields (length slots) }
{}

/// What `words_of` gives says the data again: a SET sets what a GET read. A frame has room for 231 slots (E1.20 section 6.2.10).
#[tactic(auto, using(crate::proofs::WordsBack::read_back))]
pub fn words_of_data_are_read_back()
    ensures { (fields : List TheField) → (slots : List ℕ) → (words : List (List ℕ)) → length slots ≤ 231 → words_of fields slots ≡ Some words → data_in fields words ≡ Ok slots }
{}
