ghost use Rattle.std.specs.Prelude.{◌≡◌};
ghost use Rattle.tree.specs.declared.placement.TreeFault.TheVariants.{Memory};

use couch_json::NoMemory;
use thiserror::Error;

/// What a write did to a history.
#[derive(Clone, Copy, Debug, PartialEq, Eq)]
pub enum Placed {
    /// Its revision is new, and came in.
    Added,
    /// Its revision was known, and nothing changed.
    Known,
}

/// Why a write was refused; the first that applies.
#[derive(Clone, Copy, Debug, PartialEq, Eq, Error)]
pub enum TreeFault {
    /// The path is empty, or its numbers do not go down by one to 1.
    #[error("the path of revisions is not whole")]
    BadPath = 1,
    /// The path gives a known revision another parent than it has.
    #[error("a known revision has another parent")]
    OtherParent = 2,
    /// Memory ran out.
    #[error("out of memory")]
    Memory = 3,
}

impl From<NoMemory> for TreeFault {
    ghost from_gives = { λ _ e. e ≡ Memory };

    fn from(_error: NoMemory) -> TreeFault {
        TreeFault::Memory
    }
}
