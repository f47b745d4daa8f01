//! Laws of frame texts and of UIDs, over every value. Each is the contract of a call that does nothing.

ghost use Rattle.std.specs.Prelude.{◌≡◌, ◌<◌, ◌↔◌, ℕ, List, Some, IsTrue, slice_index};
ghost use Rattle.std.specs.Ordering.{nat_cmp};
ghost use Rattle.rdm_frame.specs.Digits.{SpellsBytes};
ghost use Rattle.rdm_frame.specs.DigitReading.{bytes_in};
ghost use Rattle.rdm_frame.specs.UidText.{uid_text, SpellsUid};
ghost use Rattle.rdm_frame.specs.Discovery.{coded, uncoded, branch_reply};
ghost use Rattle.rdm_frame.specs.Faults.{AlteredIsNoFrame};
ghost use Rattle.rdm_frame.specs.FrameText.{frame_text, IsFrame, IsUid, HasSlots};
ghost use Rattle.rdm_frame.specs.UidNumber.{uid_number};

use crate::{Bytes, Entry, Fault, Frame, FrameError, Message, Nack, Severity, Uid, UidError};

/// No byte list is the text of two frames.
#[tactic(auto, using(crate::proofs::Texts::one_frame))]
pub fn text_belongs_to_one_frame()
    ensures { (f g : Frame) → IsFrame f → IsFrame g → frame_text f ≡ frame_text g → f ≡ g }
{}

/// The text of a frame has, slot by slot, what the standard prints (E1.20 section 6.2).
pub fn text_has_its_slots()
    ensures { (f : Frame) → IsFrame f → HasSlots f (frame_text f) }
{}

/// A controller reads each byte of a coded UID back from the two that stand for it (E1.20 section 7.5).
#[tactic(auto, using(crate::proofs::Branches::coded_back))]
pub fn coded_byte_is_read_back()
    ensures { (b : ℕ) → b < 256 → uncoded (slice_index (coded b) 0) (slice_index (coded b) 1) ≡ b }
{}

/// No two UIDs have the same answer to DISC_UNIQUE_BRANCH.
#[tactic(auto, using(crate::proofs::Branches::one_uid))]
pub fn branch_reply_belongs_to_one_uid()
    ensures { (u v : Uid) → IsUid u → IsUid v → branch_reply u ≡ branch_reply v → u ≡ v }
{}

/// UIDs are ordered as their 48-bit numbers (E1.20 sections 6.2.4 and 6.2.5).
pub fn uids_are_ordered_by_number()
    ensures { (u v : Uid) → IsUid u → IsUid v → ⟦<Uid as Ord>⟧.cmp u v ≡ nat_cmp (uid_number u) (uid_number v) }
{}

/// Two lists of bytes are equal by `==` exactly when they hold the same bytes.
pub fn bytes_are_equal_by_value<const N: usize>()
    ensures { (a b : List ℕ) → IsTrue (⟦<Bytes<N> as PartialEq>⟧.eq a b) ↔ (a ≡ b) }
{}

/// Two UIDs are equal by `==` exactly when their manufacturer IDs and their device IDs are.
pub fn uids_are_equal_by_value()
    ensures { (u v : Uid) → IsTrue (⟦<Uid as PartialEq>⟧.eq u v) ↔ (u ≡ v) }
{}

/// Two frames are equal by `==` exactly when each of their fields is.
#[tactic(auto, using(crate::proofs::Equality::frame_decides))]
pub fn frames_are_equal_by_value()
    ensures { (f g : Frame) → IsTrue (⟦<Frame as PartialEq>⟧.eq f g) ↔ (f ≡ g) }
{}

/// Two refusals are equal by `==` exactly when they name the same test.
pub fn frame_errors_are_equal_by_value()
    ensures { (d e : FrameError) → IsTrue (⟦<FrameError as PartialEq>⟧.eq d e) ↔ (d ≡ e) }
{}

/// Two refusals of a text as a UID are equal by `==`: there is only one.
pub fn uid_errors_are_equal_by_value()
    ensures { (d e : UidError) → IsTrue (⟦<UidError as PartialEq>⟧.eq d e) ↔ (d ≡ e) }
{}

/// Digits are read exactly when they spell bytes, in either case.
pub fn printed_bytes_are_read_back()
    ensures { (word bytes : List ℕ) → (bytes_in word ≡ Some bytes) ↔ SpellsBytes word bytes }
{}

/// What is written of a UID spells that UID.
#[tactic(auto, using(crate::proofs::NumberSpellings::uid_written))]
pub fn written_uid_is_read_back()
    ensures { (u : Uid) → IsUid u → SpellsUid (uid_text u) u }
{}

/// A frame with one slot raised by 1 to 255 isn't a valid frame: nobody on the bus takes it for one.
#[tactic(auto, using(crate::proofs::Alterations::altered_is_no_frame))]
pub fn altered_frame_is_no_frame()
    ensures { AlteredIsNoFrame }
{}

/// Two values of `Message` are equal by `==` exactly when they are the same.
pub fn messages_are_equal_by_value()
    ensures { (a b : Message) → IsTrue (⟦<Message as PartialEq>⟧.eq a b) ↔ (a ≡ b) }
{}

/// Two values of `Nack` are equal by `==` exactly when they are the same.
pub fn nacks_are_equal_by_value()
    ensures { (a b : Nack) → IsTrue (⟦<Nack as PartialEq>⟧.eq a b) ↔ (a ≡ b) }
{}

/// Two values of `Severity` are equal by `==` exactly when they are the same.
pub fn severities_are_equal_by_value()
    ensures { (a b : Severity) → IsTrue (⟦<Severity as PartialEq>⟧.eq a b) ↔ (a ≡ b) }
{}

/// Two values of `Entry` are equal by `==` exactly when they are the same.
pub fn entries_are_equal_by_value()
    ensures { (a b : Entry) → IsTrue (⟦<Entry as PartialEq>⟧.eq a b) ↔ (a ≡ b) }
{}

/// Two faults are equal by `==` exactly when they are the same, slot and raise included.
pub fn faults_are_equal_by_value()
    ensures { (a b : Fault) → IsTrue (⟦<Fault as PartialEq>⟧.eq a b) ↔ (a ≡ b) }
{}
