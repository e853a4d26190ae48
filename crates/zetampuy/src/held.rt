ghost use Rattle.std.specs.Prelude.{◌≡◌, IsSome, None, Some, Option};
ghost use Rattle.answering.specs.contracts.reckoner.Reckoner.{the_row};
ghost use Rattle.zetampuy.specs.Held.{held_owns, held_coded};

use crate::unboxed::Unboxed;
use answering::Reckoner;
use std::alloc::Global;
use std::marker::Model;
use std::ptr::null_mut;

/// A pointer to a reckoner on the heap, whose type C need not know, or to nothing. Letting it go frees nothing.
#[repr(C)]
#[derive(Drop)]
pub struct Held {
    at: *mut u8,
    pub ghost reckoner: { Option the_row.Denot } by { held_coded },
}

impl Model for Held {
    ghost also_owns = { λ h. held_owns h.at h.reckoner };
}

impl Held {
    // A pointer to nothing.
    pub(crate) fn none() -> Held
        ensures { result.reckoner ≡ None }
    {
        Held { at: null_mut() }
    }

    // A pointer to the reckoner of a box.
    pub(crate) fn of(reckoner: Box<Reckoner>) -> Held
        ensures { result.reckoner ≡ Some reckoner.value }
    {
        Held::of_unboxed(Unboxed::of(reckoner))
    }

    // The box again.
    pub(crate) fn into_box(self, heap: Global) -> Box<Reckoner>
        requires { IsSome self.reckoner }
        ensures { self.reckoner ≡ Some result.value }
    {
        self.into_unboxed(heap).into_box()
    }

    fn of_unboxed(unboxed: Unboxed<Reckoner, Global>) -> Held
        ensures { result.reckoner ≡ Some unboxed.value }
    {
        let Unboxed { ptr, alloc: _ } = unboxed;
        Held { at: ptr as *mut u8 }
    }

    fn into_unboxed(self, heap: Global) -> Unboxed<Reckoner, Global>
        requires { IsSome self.reckoner }
        ensures { self.reckoner ≡ Some result.value }
    {
        let Held { at } = self;
        Unboxed {
            ptr: at as *mut Reckoner,
            alloc: heap,
        }
    }
}
