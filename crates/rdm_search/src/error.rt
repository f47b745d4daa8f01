//! Why a search ends early.

use std::alloc::AllocError;
use thiserror::Error;

/// Why a search ends before it has searched everywhere.
#[derive(Clone, Copy, Debug, PartialEq, Eq, Error)]
pub enum SearchError {
    /// It took as many transactions as it may: the line sounds though nobody answers, or has more fixtures than the limit is for.
    #[error("the limit of transactions is reached")]
    Limit,
    /// Out of memory for what was found.
    #[error("out of memory")]
    OutOfMemory,
}

impl From<AllocError> for SearchError {
    ghost use Rattle.std.specs.Prelude.{◌≡◌};
    ghost use Rattle.rdm_search.specs.declared.error.SearchError.TheVariants.{OutOfMemory};

    ghost from_gives = { λ _ e. e ≡ OutOfMemory };

    fn from(_e: AllocError) -> SearchError {
        SearchError::OutOfMemory
    }
}
