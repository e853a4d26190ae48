ghost use Rattle.std.specs.Prelude.{◌≡◌, ◌≤◌, true, [], take, None};
ghost use Rattle.rules.specs.Table.{lawful_table, table_pull, between_points, pull_after, first_break};
ghost use Rattle.rules.specs.Refusals.{MadeIf};
ghost use Rattle.pull_table.specs.Lines.{Between};
ghost use Rattle.rules.proofs.PullTables.{table_proper, table_most, table_falls};

use crate::breaks::{MOST_POINTS, first_break};
use laws::{FallingLaw, Formula};
use rules::{PointFigures, Refusal};
use units::{ExactValue, KilogramsForce, Speed};

/// The pull of a locomotive by a table of 1 to 16 points: straight between them, and 0 beyond the last. The first speed is 0,
/// the speeds rise and the pulls do not; no other table can be made.
#[derive(Clone, Copy, Debug)]
pub struct PullTable {
    // A table owns its points, is copied, and takes no memory of the heap: no slice, `Vec` or `ArrayVec` does all three.
    points: [PointFigures; MOST_POINTS],
    count: usize,
    ghost few: { count ≤ 16 },
    ghost lawful: { lawful_table (take count points) ≡ true },
}

impl PullTable {
    ghost use Rattle.pull_table.specs.Tables.{points_of};

    /// The table of these points; refused just where `first_break` finds one that breaks it.
    pub fn new(points: &[PointFigures]) -> Result<PullTable, Refusal>
        ensures { MadeIf (first_break points.now ≡ None) (λ t. points_of t ≡ points.now) result }
    {
        match first_break(points) {
            Some(_) => Err(Refusal::UnlawfulLaw),
            None => Ok(PullTable::holding(points)),
        }
    }

    // The table that holds these points.
    fn holding(points: &[PointFigures]) -> PullTable
        requires { lawful_table points.now ≡ true }
        ensures { points_of result ≡ points.now }
    {
        let count = points.len();
        let mut all = [PointFigures { speed: 0, value: 0 }; MOST_POINTS];
        all[0..count].copy_from_slice(points);
        PullTable { points: all, count }
    }

    /// The points of the table, in order.
    pub fn points(&self) -> &[PointFigures]
        ensures { result.now ≡ points_of self.now }
    {
        &self.points[0..self.count]
    }
}

impl Formula for PullTable {
    ghost use Rattle.pull_table.specs.Tables.{points_of};

    type Unit = KilogramsForce;

    type Place = Speed;

    ghost value = { λ t v. table_pull (points_of t) v };

    ghost proper = { λ l v h. table_proper v (points_of l) l.lawful };

    ghost most = { λ l v h. table_most v (points_of l) l.lawful };

    fn exactly(&self, v: Speed) -> ExactValue<KilogramsForce> {
        let [first, rest @ ..] = self.points() else {
            unreachable!()
        };
        let mut last = *first;
        for next in rest {
            if v.tenths() < next.speed {
                return on_line(last, *next, v);
            }
            last = *next;
        }
        past(last, v)
    }
}

impl FallingLaw for PullTable {
    ghost use Rattle.pull_table.specs.Tables.{points_of};

    ghost falls = { λ l v w h k. table_falls v (points_of l) w l.lawful h };
}

// The exact pull on the straight line from p to n.
fn on_line(p: PointFigures, n: PointFigures, v: Speed) -> ExactValue<KilogramsForce>
    requires { Between p n v }
    ensures { result ≡ between_points p n v }
{
    ExactValue::of(times_length(p, n, v), n.speed - p.speed).unwrap()
}

// The pull on that line times the length of the line.
fn times_length(p: PointFigures, n: PointFigures, v: Speed) -> u64
    requires { Between p n v }
    ensures { result ≡ (between_points p n v).num }
{
    let v = v.tenths();
    let before = u64::from(p.value) * u64::from(n.speed - v);
    let after = u64::from(n.value) * u64::from(v - p.speed);
    before + after
}

// The exact pull from the last point on. The bound is that of a point of a table: a type for it would be one more wrapped number.
fn past(p: PointFigures, v: Speed) -> ExactValue<KilogramsForce>
    requires { p.value ≤ 1000000 }
    ensures { result ≡ pull_after p [] v }
{
    let value = if v.tenths() <= p.speed { p.value } else { 0 };
    ExactValue::of(u64::from(value), 1).unwrap()
}
