ghost use Rattle.std.specs.Prelude.{◌≡◌, ℕ, Some};
ghost use Rattle.rules.specs.Kind.{kind, LawfulKind};
ghost use Rattle.laws.specs.Kinds.{kind_by_letter, letter_of};
ghost use Rattle.std.proofs.Common.{rules};

use std::fmt;

/// A kind of brake by its two constants: before the brakes hold, T + C d / B seconds pass, where d is how steep the fall is
/// and B the brake force.
pub trait BrakeKind {
    ghost T: { ℕ };

    /// The seconds that always pass.
    const T: u32;

    ghost C: { ℕ };

    /// The extra seconds where the fall is as strong as the brakes.
    const C: u32;

    /// Both constants, T first.
    fn constants() -> (u32, u32)
        ensures { result ≡ (T, C) }
    {
        (Self::T, Self::C)
    }

    ghost lawful: { LawfulKind (kind T C) };
}

// The five kinds differ in two numbers, and are five types: that these are lawful is proved of the numbers of each, and a
// type over any two numbers could not say it.

/// The air brake of a freight train.
pub struct Freight;

impl BrakeKind for Freight {
    ghost T = { 7 };

    const T: u32 = 7;

    ghost C = { 10 };

    const C: u32 = 10;

    ghost lawful = { Prim.search rules };
}

/// The air brake of a passenger train.
pub struct Passenger;

impl BrakeKind for Passenger {
    ghost T = { 4 };

    const T: u32 = 4;

    ghost C = { 5 };

    const C: u32 = 5;

    ghost lawful = { Prim.search rules };
}

/// The electro-pneumatic brake.
pub struct ElectroPneumatic;

impl BrakeKind for ElectroPneumatic {
    ghost T = { 2 };

    const T: u32 = 2;

    ghost C = { 0 };

    const C: u32 = 0;

    ghost lawful = { Prim.search rules };
}

/// The hand brakes of a freight train.
pub struct FreightByHand;

impl BrakeKind for FreightByHand {
    ghost T = { 30 };

    const T: u32 = 30;

    ghost C = { 0 };

    const C: u32 = 0;

    ghost lawful = { Prim.search rules };
}

/// The hand brakes of a passenger train.
pub struct PassengerByHand;

impl BrakeKind for PassengerByHand {
    ghost T = { 60 };

    const T: u32 = 60;

    ghost C = { 0 };

    const C: u32 = 0;

    ghost lawful = { Prim.search rules };
}

// The types above are chosen where a program is written, a letter where it runs.

/// A kind of brake by its letter.
#[derive(Clone, Copy, PartialEq, Eq, Debug)]
pub enum KindLetter {
    /// Freight.
    F,
    /// Passenger.
    P,
    /// Electro-pneumatic.
    E,
    /// Freight by hand.
    H,
    /// Passenger by hand.
    J,
}

impl fmt::Display for KindLetter {
    ghost output = { λ x. Some (letter_of x) };

    fn fmt<W: fmt::Write>(&self, f: &mut fmt::Formatter<W>) -> fmt::Result {
        f.write_str(match self {
            KindLetter::F => "F",
            KindLetter::P => "P",
            KindLetter::E => "E",
            KindLetter::H => "H",
            KindLetter::J => "J",
        })
    }
}

/// The two constants of a kind of brake by its letter, T first.
pub fn constants_of(kind: KindLetter) -> (u32, u32)
    ensures { result ≡ ((kind_by_letter kind).seconds, (kind_by_letter kind).extra) }
{
    match kind {
        KindLetter::F => Freight::constants(),
        KindLetter::P => Passenger::constants(),
        KindLetter::E => ElectroPneumatic::constants(),
        KindLetter::H => FreightByHand::constants(),
        KindLetter::J => PassengerByHand::constants(),
    }
}
