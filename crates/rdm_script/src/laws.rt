//! Laws of the script language, over every byte list and every dialect. Each is the contract of a call that does nothing.

ghost use Rattle.std.specs.Prelude.{◌≡◌, ◌↔◌, ℕ, List, IsTrue, false};
ghost use Rattle.rdm_frame.specs.declared.uid.Uid.{Uid as TheUid};
ghost use Rattle.rdm_profile.specs.declared.profile.own.ParameterDef.{ParameterDef as TheParameter};
ghost use Rattle.rdm_crew.specs.declared.step.CrewStep.{CrewStep as TheStep};
ghost use Rattle.rdm_script.specs.Dialects.{strict, friendly, Dialect as TheDialect};
ghost use Rattle.rdm_script.specs.Spelling.{SpellsStep, SpellsFind, SpellsSetup, IsScript};
ghost use Rattle.rdm_script.specs.Grammar.{is_skipped, line_in, first_line_in, Refuses};
ghost use Rattle.rdm_script.specs.declared.script.ScriptSetup.{ScriptSetup as TheSetup};
ghost use Rattle.rdm_script.specs.declared.grammar.line.Line.TheVariants.{Sets, Says, Finds};
ghost use Rattle.rdm_script.specs.declared.grammar.parsing.ScriptError.{ScriptError as TheError};
ghost use Rattle.rdm_script.specs.declared.grammar.parsing.ScriptError.TheVariants.{OutOfMemory};

use crate::{ProgramError, Refusal, ScriptError, ScriptSetup, Unplayed, Wanted};

/// No byte list is two scripts.
pub fn text_is_one_script()
    ensures { (d : TheDialect) (text : List ℕ) (s t : TheSetup) (a b : List TheStep) →
        IsScript d text s a → IsScript d text t b → (s ≡ t) × (a ≡ b) }
{}

/// No byte list is both a script and refused, but for want of memory.
pub fn script_is_never_refused()
    ensures { (d : TheDialect) (text : List ℕ) (setup : TheSetup) (steps : List TheStep) (e : TheError) →
        IsScript d text setup steps → Refuses d e text → e ≡ OutOfMemory }
{}

/// A line says exactly what its words spell: a step, unless it is skipped, a search, and in the first line a setup.
pub fn line_says_what_its_words_spell()
    ensures step { (d : TheDialect) (words : List (List ℕ)) (step : TheStep) →
        (line_in d words ≡ Says step) ↔ ((is_skipped words ≡ false) × SpellsStep d words step) }
    ensures first_step { (d : TheDialect) (words : List (List ℕ)) (step : TheStep) →
        (first_line_in d words ≡ Says step) ↔ ((is_skipped words ≡ false) × SpellsStep d words step) }
    ensures search { (d : TheDialect) (words : List (List ℕ)) (device : TheUid) →
        (line_in d words ≡ Finds device) ↔ (SpellsFind d words × (device ≡ d.device)) }
    ensures first_search { (d : TheDialect) (words : List (List ℕ)) (device : TheUid) →
        (first_line_in d words ≡ Finds device) ↔ (SpellsFind d words × (device ≡ d.device)) }
    ensures setup { (d : TheDialect) (words : List (List ℕ)) (setup : TheSetup) →
        (first_line_in d words ≡ Sets setup) ↔ SpellsSetup words setup }
{}

/// Whatever spells a step strictly spells the same step in a friendly script, whichever parameters of the maker's own this may name.
pub fn strict_steps_are_friendly()
    ensures { (device : TheUid) (own : List TheParameter) (words : List (List ℕ)) (step : TheStep) →
        SpellsStep (strict device) words step → SpellsStep (record (friendly device) { own = own }) words step }
{}

/// Two setups are equal by `==` exactly where each of their fields is.
pub fn setups_are_equal_by_value()
    ensures { (a b : ScriptSetup) → IsTrue (⟦<ScriptSetup as PartialEq>⟧.eq a b) ↔ (a ≡ b) }
{}

/// Two reasons why bytes are no script are equal by `==` exactly where they are the same, the line included.
pub fn script_errors_are_equal_by_value()
    ensures { (a b : ScriptError) → IsTrue (⟦<ScriptError as PartialEq>⟧.eq a b) ↔ (a ≡ b) }
{}

/// Two failures of the program are equal by `==` exactly where they are the same, with the same cause.
pub fn program_errors_are_equal_by_value()
    ensures { (a b : ProgramError) → IsTrue (⟦<ProgramError as PartialEq>⟧.eq a b) ↔ (a ≡ b) }
{}

/// Two reasons why a script isn't played are equal by `==` exactly where they are the same, with the same cause and line.
pub fn unplayeds_are_equal_by_value()
    ensures { (a b : Unplayed) → IsTrue (⟦<Unplayed as PartialEq>⟧.eq a b) ↔ (a ≡ b) }
{}

/// Two values of `Wanted` are equal by `==` exactly where they are the same.
pub fn wanteds_are_equal_by_value()
    ensures { (a b : Wanted) → IsTrue (⟦<Wanted as PartialEq>⟧.eq a b) ↔ (a ≡ b) }
{}

/// Two refusals are equal by `==` exactly where they are of the same word at the same place, and the same was wanted there.
pub fn refusals_are_equal_by_value()
    ensures { (a b : Refusal) → IsTrue (⟦<Refusal as PartialEq>⟧.eq a b) ↔ (a ≡ b) }
{
    wanteds_are_equal_by_value();
}
