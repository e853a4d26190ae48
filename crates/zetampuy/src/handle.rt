ghost use Rattle.std.specs.Prelude.{◌≡◌, true, false, is_some, IsSome, MatchOption, Some, None};

use crate::held::Held;
use answering::Reckoner;
use std::alloc::Global;
use std::mem;

/// What C holds of a reckoner: whether there is one, and where.
#[repr(C)]
#[derive(Drop)]
pub struct Handle {
    pub made: bool,
    pub held: Held,
    ghost is: { made ≡ is_some held.reckoner },
}

impl Handle {
    // A handle without a reckoner.
    pub(crate) fn none() -> Handle
        ensures { result.held.reckoner ≡ None }
    {
        Handle {
            made: false,
            held: Held::none(),
        }
    }

    // A handle of a reckoner.
    pub(crate) fn of(reckoner: Box<Reckoner>) -> Handle
        ensures { result.held.reckoner ≡ Some reckoner.value }
    {
        Handle {
            made: true,
            held: Held::of(reckoner),
        }
    }

    // Takes the reckoner out, if there is one.
    pub(crate) fn take(&mut self, heap: Global) -> Option<Box<Reckoner>>
        ensures taken { MatchOption result (self.old.held.reckoner ≡ None) (λ b. self.old.held.reckoner ≡ Some b.value) }
        ensures left { self.new.held.reckoner ≡ None }
    {
        let Handle { made, held } = mem::replace(self, Handle::none());
        if made {
            Some(held.into_box(heap))
        } else {
            None
        }
    }
}
