//! Writes of one stored value, each of which says whether the value is another one now.
//!
//! A value is compared before it is written, since to look at it again afterwards would cost more.

ghost use Rattle.std.specs.Prelude.{◌≡◌, ◌↔◌, ◌≤◌, ◌++◌, [], ◌∷◌, length, false};
ghost use Rattle.rdm_profile.specs.Values.{word_slots, long_slots};

use rdm_frame::Text;

/// Writes an 8-bit number over another one, and says whether it is another number.
#[inline(always)]
pub fn byte(field: &mut u8, written: u8) -> bool
    ensures now { field.new ≡ written }
    ensures same { (result ≡ false) ↔ (written ∷ [] ≡ field.old ∷ []) }
{
    let changed = *field != written;
    *field = written;
    changed
}

/// Writes a 16-bit number over another one, and says whether it is another number.
#[inline(always)]
pub fn word(field: &mut u16, written: u16) -> bool
    ensures now { field.new ≡ written }
    ensures same { (result ≡ false) ↔ (word_slots written ≡ word_slots field.old) }
{
    let changed = *field != written;
    *field = written;
    changed
}

/// Writes a 32-bit number over another one, and says whether it is another number.
#[inline(always)]
pub fn long(field: &mut u32, written: u32) -> bool
    ensures now { field.new ≡ written }
    ensures same { (result ≡ false) ↔ (long_slots written ≡ long_slots field.old) }
{
    let changed = *field != written;
    *field = written;
    changed
}

/// Writes a preset and its level over others, and says whether one of the two is another.
#[inline(always)]
pub fn preset(field: &mut (u16, u8), written: (u16, u8)) -> bool
    ensures now { field.new ≡ written }
    ensures same { (result ≡ false) ↔ (word_slots written.0 ++ written.1 ∷ [] ≡ word_slots field.old.0 ++ field.old.1 ∷ []) }
{
    let changed = field.0 != written.0 || field.1 != written.1;
    *field = written;
    changed
}

/// Writes a text over another one, and says whether it is another text.
#[inline(always)]
pub fn text(field: &mut Text, written: &[u8]) -> bool
    requires { length written.now ≤ 32 }
    ensures now { field.new ≡ written.now }
    ensures same { (result ≡ false) ↔ (written.now ≡ field.old) }
{
    if field.as_slice() == written {
        return false;
    }
    field.clear();
    field.append(written);
    true
}

/// The same for a text in a list, of which most are passed over.
#[inline(always)]
pub fn kept(field: &mut Text, written: &[u8]) -> bool
    requires { length written.now ≤ 32 }
    ensures now { field.new ≡ written.now }
    ensures same { (result ≡ false) ↔ (written.now ≡ field.old) }
{
    if field.as_slice() == written {
        return false;
    }
    write_over(field, written);
    true
}

/// Writes a text over another one.
// A call: inlined into a loop it would take the registers of those that are passed over.
#[inline(never)]
fn write_over(field: &mut Text, written: &[u8])
    requires { length written.now ≤ 32 }
    ensures { field.new ≡ written.now }
{
    field.clear();
    field.append(written);
}
