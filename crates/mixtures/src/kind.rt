ghost use Rattle.std.proofs.Common.{rules};

use laws::BrakeKind;

/// A brake that is let in by air and by current.
pub struct Combined;

impl BrakeKind for Combined {
    ghost T = { 3 };

    const T: u32 = 3;

    ghost C = { 6 };

    const C: u32 = 6;

    ghost lawful = { Prim.search rules };
}
