//! Which time an event takes: the one that was read, within the limits of age, or another.

ghost use Rattle.std.specs.Prelude.{◌≡◌, ◌*◌, ◌+ℤ◌, ◌-ℤ◌, pos};
ghost use Rattle.ix_time.specs.Chosen as Chosen;

/// Where the time of an event comes from.
#[derive(Clone, Copy, Debug, PartialEq, Eq)]
pub enum Origin {
    /// Its text.
    Read,
    /// An earlier event, the latest one whose time was read and accepted.
    Last,
    /// Its arrival.
    Arrival,
}

/// The time of an event, in microseconds since 1970-01-01T00:00:00Z.
#[derive(Clone, Copy, Debug, PartialEq, Eq)]
pub struct TimeFound {
    pub time: i64,
    pub origin: Origin,
}

/// The time that was read where it is within the limits, else the last one, else the arrival.
pub(crate) fn settle(
    read: Option<i64>,
    arrival: i64,
    days_ago: u32,
    days_hence: u32,
    last: Option<i64>,
) -> TimeFound
    ensures { result ≡ Chosen.settle read arrival days_ago days_hence last }
{
    if let Some(time) = read {
        if is_accepted(time, arrival, days_ago, days_hence) {
            return TimeFound {
                time,
                origin: Origin::Read,
            };
        }
    }
    match last {
        Some(time) => TimeFound {
            time,
            origin: Origin::Last,
        },
        None => TimeFound {
            time: arrival,
            origin: Origin::Arrival,
        },
    }
}

fn is_accepted(time: i64, arrival: i64, days_ago: u32, days_hence: u32) -> bool
    ensures { result ≡ Chosen.is_accepted time arrival days_ago days_hence }
{
    let oldest = days_before(arrival, days_ago);
    let newest = days_after(arrival, days_hence);
    let time = time as i128;
    if time < oldest {
        return false;
    }
    if time > newest {
        return false;
    }
    true
}

fn days_before(moment: i64, days: u32) -> i128
    ensures { result ≡ moment -ℤ pos (days * 86_400_000_000) }
{
    moment as i128 - days as i128 * 86_400_000_000
}

fn days_after(moment: i64, days: u32) -> i128
    ensures { result ≡ moment +ℤ pos (days * 86_400_000_000) }
{
    moment as i128 + days as i128 * 86_400_000_000
}
