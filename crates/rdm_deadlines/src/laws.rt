//! The law of a new record of deadlines: the contract of a call that does nothing.

ghost use Rattle.std.specs.Prelude.{◌≡◌, None, ℕ};
ghost use Rattle.rdm_deadlines.specs.declared.deadlines.Deadlines.{Deadlines};
ghost use Rattle.rdm_deadlines.specs.Deadlines.{next_of};

/// One of zeros, as C makes it, has seen no worker at a job.
pub fn zeros_have_seen_nothing()
    ensures { (d : Deadlines) (now : ℕ) → d.first.there ≡ 0 → d.second.there ≡ 0 → next_of d now ≡ None }
{}
