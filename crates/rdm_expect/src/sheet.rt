//! The expectations of a text, and its script.

ghost use Rattle.std.specs.Prelude.{◌≡◌, ◌≢◌, ◌↔◌, ℕ, ◌+◌, ◌-◌, ◌^◌, ◌<◌, ◌≤◌, ◌++◌, [], ◌∷◌, length, map, None, Some, IfOk, IfErr, OnOk};
ghost use Rattle.std.specs.List.{join_with_byte};
ghost use Rattle.rdm_trace.specs.Traces.{pieces_of};
ghost use Rattle.rdm_expect.specs.Sheets.{IsSheet, IsFirstFlaw, AreFlawlessBefore, kept, sends, expected_by, expectations_of, flaw_behind, wanted_in, separator};
ghost use Rattle.rdm_expect.specs.declared.wish.Flaw.{Flaw as TheFlaw};
ghost use Rattle.rdm_expect.specs.declared.sheet.SheetError.TheVariants.{OutOfMemory, TooLong, Line as LineError};

use crate::lines::pieces_of;
use crate::wish::{Flaw, Wish, wish_in};
use crate::words::{begins, capitals, sent_by, words_in};
use std::alloc::{AllocError, AllocFailed, Global};
use thiserror::Error;

/// How many bytes a script may have, with its expectations.
pub const MOST_BYTES: usize = 65_536;

/// What is expected of a request.
#[derive(Drop)]
pub struct Expectation {
    /// The line of the script that says it, counted from 1.
    pub line: usize,
    /// The request that it is about: the last one before it, counted from 0.
    pub request: usize,
    /// What it wants.
    pub wish: Wish,
}

/// A script, and what is expected of it.
#[derive(Drop)]
pub struct Sheet {
    /// The text of the script. An expectation is an empty line there, so that every other line keeps its number.
    pub script: Vec<u8>,
    /// The expectations in order.
    pub expectations: Vec<Expectation>,
}

/// Why a text has no expectations that can be judged.
#[derive(Clone, Copy, Debug, Error)]
pub enum SheetError {
    /// Out of memory.
    #[error("out of memory")]
    OutOfMemory,
    /// There are more than 65,536 bytes.
    #[error("script too long")]
    TooLong,
    /// This line, counted from 1, is the first expectation that has a flaw.
    #[error("line {0}: this isn't a valid expectation")]
    Line(usize, Flaw),
}

/// The script and the expectations of a text.
pub fn parse(alloc: Global, text: &[u8]) -> Result<Sheet, SheetError>
    ensures ok { IfOk result (λ sheet. IsSheet text.now sheet.script.items sheet.expectations.items) }
    // Each flaw is that of the first line that has one.
    ensures line { (number : ℕ) (flaw : TheFlaw) → result ≡ Err (LineError number flaw) → IsFirstFlaw (pieces_of text.now) number flaw }
    ensures too_long { (result ≡ Err TooLong) ↔ (65536 < length text.now) }
{
    if text.len() > MOST_BYTES {
        return Err(SheetError::TooLong);
    }
    let pieces = pieces_of(alloc, text)?;
    read_all(alloc, &pieces)
}

/// The script and the expectations that these lines are.
fn read_all(alloc: Global, pieces: &[&[u8]]) -> Result<Sheet, SheetError>
    requires within { length pieces.now ≤ 65537 }
    ensures script { IfOk result (λ sheet. sheet.script.items ≡ join_with_byte 10 (map kept (map (λ piece. piece.now) pieces.now))) }
    ensures whole { IfOk result (λ sheet. sheet.expectations.items ≡ expectations_of (map (λ piece. piece.now) pieces.now)) }
    ensures flawless { OnOk result (AreFlawlessBefore (map (λ piece. piece.now) pieces.now)
        (length (map (λ piece. piece.now) pieces.now))) }
    ensures line { (number : ℕ) (flaw : TheFlaw) → result ≡ Err (LineError number flaw) →
        IsFirstFlaw (map (λ piece. piece.now) pieces.now) number flaw }
    ensures short { result ≢ Err TooLong }
{
    let mut sheet = Sheet {
        script: Vec::new(alloc),
        expectations: Vec::new(alloc),
    };
    let mut sent = 0;
    let mut index = 0;
    while index < pieces.len() {
        separate(&mut sheet.script, index)?;
        sent += read_line(alloc, &mut sheet, index, sent, pieces[index])?;
        index += 1;
    }
    Ok(sheet)
}

/// Puts an LF before each line but the first.
fn separate(script: &mut Vec<u8>, index: usize) -> Result<(), AllocError>
    ensures { OnOk result (script.new.items ≡ script.old.items ++ separator index) }
{
    if index == 0 {
        Ok(())
    } else {
        script.extend_from_slice(b"\n")
    }
}

/// Puts the line at this index, before which so many requests are sent, and says how many it sends.
fn read_line(
    alloc: Global,
    sheet: &mut Sheet,
    index: usize,
    sent: usize,
    line: &[u8],
) -> Result<usize, SheetError>
    requires within { index < 2 ^ 32 }
    ensures sends { IfOk result (λ count. (count ≡ sends line.now) × (count ≤ 4)) }
    ensures script { OnOk result (sheet.new.script.items ≡ sheet.old.script.items ++ kept line.now) }
    ensures whole { OnOk result (sheet.new.expectations.items ≡ sheet.old.expectations.items ++ expected_by index sent line.now) }
    ensures flawless { OnOk result (flaw_behind sent line.now ≡ None) }
    ensures flaw { (number : ℕ) (flaw : TheFlaw) → result ≡ Err (LineError number flaw) →
        (number ≡ index + 1) × (flaw_behind sent line.now ≡ Some flaw) }
    ensures short { result ≢ Err TooLong }
{
    let capitals = capitals(alloc, line)?;
    let words = words_in(alloc, &capitals)?;
    if begins(&words, b"EXPECT") {
        match wanted_behind(sent, &words) {
            Ok(wish) => put(sheet, index, sent, wish)?,
            Err(flaw) => return Err(SheetError::Line(index + 1, flaw)),
        }
    } else {
        sheet.script.extend_from_slice(line)?;
    }
    Ok(sent_by(&words))
}

/// Puts an expectation behind so many requests.
fn put(sheet: &mut Sheet, index: usize, sent: usize, wish: Wish) -> Result<(), SheetError>
    requires within { index < 2 ^ 32 }
    requires some { 0 < sent }
    ensures script { sheet.new.script ≡ sheet.old.script }
    ensures whole { OnOk result (sheet.new.expectations.items ≡ sheet.old.expectations.items
        ++ record { line = index + 1; request = sent - 1; wish = wish } ∷ []) }
    ensures memory { IfErr result (λ e. e ≡ OutOfMemory) }
{
    let expectation = Expectation {
        line: index + 1,
        request: sent - 1,
        wish,
    };
    Ok(sheet.expectations.push(expectation)?)
}

/// What the words of an expectation want behind so many requests.
fn wanted_behind(sent: usize, words: &[&[u8]]) -> Result<Wish, Flaw>
    ensures { result ≡ wanted_in sent (map (λ word. word.now) words.now) }
{
    if sent == 0 {
        return Err(Flaw::NoRequest);
    }
    match words {
        [_, more @ ..] => wish_in(more),
        [] => wish_in(&[]),
    }
}

impl From<AllocError> for SheetError {
    ghost from_gives = { λ _ e. e ≡ OutOfMemory };

    fn from(_error: AllocError) -> SheetError {
        SheetError::OutOfMemory
    }
}

impl<T: Drop> From<AllocFailed<T>> for SheetError {
    ghost from_gives = { λ _ e. e ≡ OutOfMemory };

    fn from(_error: AllocFailed<T>) -> SheetError {
        SheetError::OutOfMemory
    }
}
