ghost use Rattle.std.specs.Prelude.{◌≡◌, ◌≤◌};
ghost use Rattle.rules.specs.Stop.{edge};

use units::Speed;

// Edge k: 0, 100, 200, 300, 400, 500, and then every 50.
pub(crate) fn edge(k: u32) -> Speed
    requires { k ≤ 27 }
    ensures { result ≡ edge k }
{
    Speed::capped((100 * k).min(250 + 50 * k))
}
