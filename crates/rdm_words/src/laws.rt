//! Laws of what is said. Each is the contract of a call that does nothing.

ghost use Rattle.std.specs.Prelude.{◌≡◌, ◌<◌, ℕ, List};
ghost use Rattle.std.specs.List.{AllByRecursion};
ghost use Rattle.rdm_trace.specs.declared.line.Line.{Line as TheLine};
ghost use Rattle.rdm_words.specs.declared.before.Before.{Before as TheBefore};
ghost use Rattle.rdm_words.specs.Plain.{IsPlain, escaped};
ghost use Rattle.rdm_words.specs.Said.{SayInTurn, AreToldInTurn};
ghost use Rattle.rdm_words.specs.Unescaping.{unescaped};

/// No byte of a text that is escaped is lost: the text is read back, and so no two texts are escaped alike.
#[tactic(auto, using(crate::proofs::Unescaping::read_back))]
pub fn escaped_text_is_read_back()
    ensures { (text : List ℕ) → AllByRecursion (λ byte. byte < 256) text → unescaped (escaped text) ≡ text }
{}

/// Whatever the lines hold, what is said of them is plain: nothing in it commands a terminal.
#[tactic(auto, using(crate::proofs::Plainness::said_plain, crate::proofs::Plainness::told_plain))]
pub fn what_is_said_is_plain()
    ensures said { (before : TheBefore) (lines : List (List ℕ)) → (said : List ℕ) → SayInTurn before lines said → IsPlain said }
    ensures told { (before : TheBefore) (lines : List TheLine) → (said : List ℕ) → AreToldInTurn before lines said → IsPlain said }
{}
