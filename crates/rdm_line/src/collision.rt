//! Collisions.

ghost use Rattle.std.specs.Prelude.{◌≡◌, ◌≤◌, ◌∷◌, [], length, slice_index};
ghost use Rattle.rdm_line.specs.Collisions.{all_bits, collided, next_number, rubbish};

use rdm_frame::Wire;

/// What is on the wire when several devices answer at once (E1.20 section 7.5). It is never nothing.
#[derive(Clone, Copy, Debug, PartialEq, Eq)]
pub enum Collision {
    /// All bits of all answers, as where each device pulls the line one way.
    AllBits,
    /// The answer of the device with the lowest UID alone, as where one drives harder than the others.
    First,
    /// 24 bytes that this seed gives, whoever answers.
    Rubbish(u64),
}

/// Adds an answer to what is on the wire.
pub(crate) fn collide(rule: Collision, answer: &[u8], wire: &mut Wire)
    requires { length answer.now ≤ 257 }
    ensures { wire.new ≡ collided rule wire.old (answer.now ∷ []) }
{
    match rule {
        Collision::AllBits => *wire = all_bits(wire.as_slice(), answer),
        Collision::First => {}
        Collision::Rubbish(seed) => *wire = rubbish(seed),
    }
}

/// All bits of both.
fn all_bits(first: &[u8], second: &[u8]) -> Wire
    requires first { length first.now ≤ 257 }
    requires second { length second.now ≤ 257 }
    ensures { result ≡ all_bits first.now second.now }
{
    let mut both = Wire::new();
    for i in 0..first.len().max(second.len()) {
        both.append(&[byte_at(first, i) | byte_at(second, i)]);
    }
    both
}

/// The byte at a place, and 0 past the end.
fn byte_at(bytes: &[u8], index: usize) -> u8
    ensures { result ≡ slice_index bytes.now index }
{
    if index < bytes.len() { bytes[index] } else { 0 }
}

/// 24 bytes without an order that can be seen.
fn rubbish(seed: u64) -> Wire
    ensures { result ≡ rubbish seed }
{
    let first = next_number(seed);
    let second = next_number(first);
    let third = next_number(second);
    let mut bytes = Wire::new();
    bytes.append(&first.to_be_bytes());
    bytes.append(&second.to_be_bytes());
    bytes.append(&third.to_be_bytes());
    bytes
}

/// The next number of the sequence.
fn next_number(number: u64) -> u64
    ensures { result ≡ next_number number }
{
    number
        .wrapping_mul(6_364_136_223_846_793_005)
        .wrapping_add(1_442_695_040_888_963_407)
}
