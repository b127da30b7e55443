//! Stretches of time.

ghost use Rattle.std.specs.Prelude.{◌≡◌};
ghost use Rattle.ix_life.specs.Times as defs;

/// Whether one time is more than so many seconds before another. Times are microseconds since
/// 1970-01-01T00:00:00Z.
pub fn is_longer(from: i64, to: i64, secs: u64) -> bool
    ensures { result ≡ defs.is_longer from to secs }
{
    from < to && u128::from(secs) * 1_000_000 < u128::from(to.abs_diff(from))
}
