//! Laws of texts without expectations, and of `found`. Each is the contract of a call that does nothing.

ghost use Rattle.std.specs.Prelude.{◌≡◌, ◌↔◌, ℕ, List, All, true, false};
ghost use Rattle.rdm_frame.specs.declared.uid.Uid.{Uid};
ghost use Rattle.rdm_frame.specs.Discovery.{IsBranchReply};
ghost use Rattle.rdm_trace.specs.Traces.{pieces_of};
ghost use Rattle.rdm_expect.specs.Sheets.{is_expectation, script_of};
ghost use Rattle.rdm_expect.specs.Verdicts.{is_answer_of};

/// A text without expectations is its own script, byte for byte.
#[tactic(auto, using(crate::proofs::Scripts::own_script))]
pub fn text_without_expectations_is_its_script()
    ensures { (text : List ℕ) → All (λ line. is_expectation line ≡ false) (pieces_of text) → script_of text ≡ text }
{}

/// What `found` demands is the answer of the device to DISC_UNIQUE_BRANCH, with at most 7 of its first bytes lost (E1.20 section 7.5).
#[tactic(auto, using(crate::proofs::Branches::answers))]
pub fn found_is_the_answer_to_discovery()
    ensures { (uid : Uid) (bytes : List ℕ) → (is_answer_of uid bytes ≡ true) ↔ IsBranchReply uid bytes }
{}
