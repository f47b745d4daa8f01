//! What a person changes at the fixture's own panel.

ghost use Rattle.std.specs.Prelude.{◌↔◌, ℕ, IfSome};
ghost use Rattle.rdm_commands.specs.declared.panel.Change.{Change};

use rdm_params::Change;

/// Offers changes at the front panel, one after another, on a thread of its own.
pub trait Panel: Drop {
    // The changes that it may offer for a number.
    ghost offers: { Self → ℕ → Change → Type 0 };

    /// The change of this number, counted from 0, or none if nobody changes anything any more. It waits for no other
    /// thread.
    ///
    /// What may be offered for a number stays the same for the whole life of a panel.
    fn next(&mut self, number: u32) -> Option<Change>
        ensures offers { IfSome result (λ change. offers self.old number change) }
        ensures same { (n : ℕ) (c : Change) → offers self.new n c ↔ offers self.old n c };
}
