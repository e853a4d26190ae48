ghost use Rattle.std.specs.Prelude.{◌≡◌, ◌+◌, ◌*◌, ◌/◌, ◌≤◌, Some, decimal};

use std::fmt;
use std::marker::{Model, PhantomData};

/// Millionths, in which a coefficient of friction is told.
#[derive(Clone, Copy, PartialEq, Eq, Debug)]
pub struct Millionths;

/// Kilograms-force, in which a pull is told.
#[derive(Clone, Copy, PartialEq, Eq, Debug)]
pub struct KilogramsForce;

/// Thousandths of a kilogram-force per tonne, in which a force per mass is told.
#[derive(Clone, Copy, PartialEq, Eq, Debug)]
pub struct MilliPerTonne;

// An amount has no range, and so is made without a refusal; a figure that has one is a `Tenths`.
/// A whole number of some unit. It is never negative, and no amount is taken for one of another unit.
#[derive_where(Clone, Copy, PartialEq, Eq, PartialOrd, Ord, Debug)]
pub struct Amount<U> {
    count: u32,
    unit: PhantomData<U>,
}

/// A coefficient of friction in millionths.
pub type Friction = Amount<Millionths>;

/// A force in kgf.
pub type Kgf = Amount<KilogramsForce>;

/// A force per mass in milli, thousandths of kgf/t.
pub type Milli = Amount<MilliPerTonne>;

impl<U> Model for Amount<U> {
    ghost use Rattle.std.specs.Prelude.{ℕ};

    ghost Value = { ℕ };

    ghost view = { λ a. a.count };

    ghost inverse = { λ n. record { count = n; unit = _ } };
}

impl<U> Amount<U> {
    // By `new` and not by `From`: no bare number turns into an amount unseen, and the unit is that of the type.
    /// So many of the unit.
    pub fn new(count: u32) -> Amount<U>
        ensures { result ≡ count }
    {
        Amount {
            count,
            unit: PhantomData,
        }
    }

    /// How many of the unit.
    pub fn count(self) -> u32
        ensures { result ≡ self }
    {
        self.count
    }
}

impl<U> fmt::Display for Amount<U> {
    ghost output = { λ a. Some (decimal a) };

    fn fmt<W: fmt::Write>(&self, f: &mut fmt::Formatter<W>) -> fmt::Result {
        write!(f, "{}", self.count)
    }
}

impl Milli {
    /// The mean of two specific forces by the masses that they act on, rounded down; 0 without any mass.
    pub fn mean(self, mass: u32, other: Milli, beside: u32) -> Milli
        ensures { result ≡ (mass * self + beside * other) / (mass + beside) }
    {
        let whole = u64::from(mass) + u64::from(beside);
        if whole == 0 {
            return Milli::new(0);
        }
        let sum = u128::from(self.on_mass(mass)) + u128::from(other.on_mass(beside));
        Milli::new((sum / u128::from(whole)) as u32)
    }

    /// The force on a mass in tenths of a tonne, in ten-thousandths of kgf.
    pub fn on_mass(self, mass: u32) -> u64
        ensures value { result ≡ mass * self }
        ensures bound { result ≤ 4294967295 * mass }
    {
        u64::from(mass) * u64::from(self.count())
    }
}

impl Kgf {
    /// The force in ten-thousandths of kgf.
    pub fn ten_thousandths(self) -> u64
        ensures value { result ≡ 10000 * self }
        ensures bound { result ≤ 10000 * 4294967295 }
    {
        10_000 * u64::from(self.count())
    }
}
