//! Waiting for an answer.

ghost use Rattle.std.specs.Prelude.{◌≡◌, ◌≢◌, ◌<◌, ◌++◌, ℕ, List, length, true, false, None, IfOk, OnErr};
ghost use Rattle.std.specs.Io.KnownBytes.{Consumes, IsAtEnd};
ghost use Rattle.rdm_messages.specs.Framing.{IsUnfinished};
ghost use Rattle.rdm_interface.specs.Answers.{belongs};
ghost use Rattle.rdm_interface.specs.Exchanges.{IsOver, IsPast, IsReadOn};

use crate::answer::Answer;
use crate::finding::take_answer;
use crate::wanted::Wanted;
use rdm_collector::PortError;
use rdm_messages::{Clock, Packet, take_more};
use std::io::Read;

/// How many reads in a row give no byte, while the limit isn't over, until the line is taken for closed. The longest limit has
/// fewer tenths of a second, so that a reader which waits a tenth of a second before it gives none is never taken for closed.
const EMPTY_READS: u32 = 1000;

/// Waits for the next message that is the one, so many milliseconds, and passes over all before it. `Ok(None)` when they are over:
/// what was read by then has none.
pub(crate) fn await_answer<R: Read, C: Clock>(
    reader: &mut R,
    clock: &mut C,
    held: &mut Packet,
    wanted: &Wanted<'_>,
    span: u16,
) -> Result<Option<Answer>, PortError>
    requires { length held.old < 605 }
    ensures next { IfOk result
        (IsReadOn (belongs wanted.now) (R.remaining reader.old) (R.remaining reader.new) held.old held.new) }
    ensures over { result ≡ Ok None → IsOver C.tells span clock.old clock.new }
    ensures searched { result ≡ Ok None → IsUnfinished held.new }
    // Where it fails, nothing was passed over that is the one.
    ensures passed { OnErr result
        (IsReadOn (belongs wanted.now) (R.remaining reader.old) (R.remaining reader.new) held.old held.new None) }
    ensures closed { result ≡ Err PortError.Closed → IsAtEnd (R.remaining reader.new) }
    ensures read { result ≢ Err PortError.Write }
    ensures room { length held.new < 605 }
{
    let start = clock.now();
    match take_answer(held, wanted) {
        Some(answer) => Ok(Some(answer)),
        None => read_answer(reader, clock, held, wanted, start, span),
    }
}

/// Reads until the message that is waited for is there, or so many milliseconds have passed since the clock told the start.
fn read_answer<R: Read, C: Clock>(
    reader: &mut R,
    clock: &mut C,
    held: &mut Packet,
    wanted: &Wanted<'_>,
    start: u64,
    span: u16,
) -> Result<Option<Answer>, PortError>
    requires { IsUnfinished held.old }
    ensures next { IfOk result
        (IsReadOn (belongs wanted.now) (R.remaining reader.old) (R.remaining reader.new) held.old held.new) }
    ensures past { result ≡ Ok None → IsPast C.tells span start clock.new }
    ensures searched { result ≡ Ok None → IsUnfinished held.new }
    ensures passed { OnErr result
        (IsReadOn (belongs wanted.now) (R.remaining reader.old) (R.remaining reader.new) held.old held.new None) }
    ensures closed { result ≡ Err PortError.Closed → IsAtEnd (R.remaining reader.new) }
    ensures read { result ≢ Err PortError.Write }
    ensures room { length held.new < 605 }
{
    let mut empty = 0;
    for _turn in 0..u64::MAX {
        if clock.now().saturating_sub(start) >= u64::from(span) {
            return Ok(None);
        }
        match read_once(reader, held, wanted, &mut empty) {
            Ok(Some(answer)) => return Ok(Some(answer)),
            Ok(None) => {}
            Err(error) => return Err(error),
        }
    }
    Err(PortError::Read)
}

/// Reads once, and looks for the message that is waited for in all that is held then.
fn read_once<R: Read>(
    reader: &mut R,
    held: &mut Packet,
    wanted: &Wanted<'_>,
    empty: &mut u32,
) -> Result<Option<Answer>, PortError>
    requires { length held.old < 605 }
    ensures next { IfOk result
        (IsReadOn (belongs wanted.now) (R.remaining reader.old) (R.remaining reader.new) held.old held.new) }
    ensures searched { result ≡ Ok None → IsUnfinished held.new }
    ensures passed { OnErr result
        (IsReadOn (belongs wanted.now) (R.remaining reader.old) (R.remaining reader.new) held.old held.new None) }
    ensures closed { result ≡ Err PortError.Closed → IsAtEnd (R.remaining reader.new) }
    ensures read { result ≢ Err PortError.Write }
    ensures room { length held.new < 605 }
{
    match read_bytes(reader, held, empty) {
        Ok(()) => Ok(take_answer(held, wanted)),
        Err(error) => Err(error),
    }
}

/// Reads once, behind what is held. The line is closed if too many reads in a row, which are counted, gave no byte.
fn read_bytes<R: Read>(reader: &mut R, held: &mut Packet, empty: &mut u32) -> Result<(), PortError>
    requires { length held.old < 605 }
    ensures bytes { (bytes : List ℕ) × (held.new ≡ held.old ++ bytes)
        × Consumes (R.remaining reader.old) (R.remaining reader.new) bytes }
    ensures same { OnErr result (held.new ≡ held.old) }
    ensures closed { result ≡ Err PortError.Closed → IsAtEnd (R.remaining reader.new) }
    ensures read { result ≢ Err PortError.Write }
{
    let Ok(count) = take_more(reader, held) else {
        return Err(PortError::Read);
    };
    if count > 0 {
        *empty = 0;
        return Ok(());
    }
    *empty = empty.saturating_add(1);
    if *empty < EMPTY_READS {
        Ok(())
    } else {
        Err(PortError::Closed)
    }
}

/// Reads until a read gives no byte, which is `Ok(true)`, or the limit is over.
pub(crate) fn pass_over<R: Read, C: Clock>(
    reader: &mut R,
    clock: &mut C,
    span: u16,
) -> Result<bool, PortError>
    ensures quiet { result ≡ Ok true → IsAtEnd (R.remaining reader.new) }
    ensures loud { result ≡ Ok false → IsOver C.tells span clock.old clock.new }
    ensures some { result ≡ Ok false → (bytes : List ℕ) × (0 < length bytes)
        × Consumes (R.remaining reader.old) (R.remaining reader.new) bytes }
    ensures read { OnErr result (result ≡ Err PortError.Read) }
{
    let start = clock.now();
    for _turn in 0..u64::MAX {
        let mut piece = Packet::new();
        let Ok(count) = take_more(reader, &mut piece) else {
            return Err(PortError::Read);
        };
        if count == 0 {
            return Ok(true);
        }
        let passed = clock.now().saturating_sub(start);
        if passed >= u64::from(span) {
            return Ok(false);
        }
    }
    Err(PortError::Read)
}
