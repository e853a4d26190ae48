ghost use Rattle.std.specs.Prelude.{◌≡◌, true, ◌&&◌, MatchOption, nat_lt};
ghost use Rattle.rules.specs.Table.{may_begin, may_follow, lawful_table, first_break, BreaksFirst};

use rules::PointFigures;

/// The most points that a table has.
pub const MOST_POINTS: usize = 16;

/// The first point, counted from 0, that breaks a table of these points; none where they make a table. Without any point it
/// is 0, the one that is missing.
pub fn first_break(points: &[PointFigures]) -> Option<usize>
    ensures place { result ≡ first_break points.now }
    ensures says { MatchOption result (lawful_table points.now ≡ true) (λ k. BreaksFirst points.now k) }
{
    let [first, rest @ ..] = points else {
        return Some(0);
    };
    if !can_begin(*first) {
        return Some(0);
    }
    let mut last = *first;
    for (before, next) in rest.iter().enumerate() {
        if !can_come_next(before + 1, last, *next) {
            return Some(before + 1);
        }
        last = *next;
    }
    None
}

// Whether a table can begin with p.
fn can_begin(p: PointFigures) -> bool
    ensures { result ≡ may_begin p }
{
    p.speed == 0 && p.value <= 1_000_000
}

// Whether n can come next after p, the last of k points.
fn can_come_next(k: usize, p: PointFigures, n: PointFigures) -> bool
    ensures { result ≡ nat_lt k 16 && may_follow p n }
{
    k < MOST_POINTS && p.speed < n.speed && n.speed <= 1600 && n.value <= p.value
}
