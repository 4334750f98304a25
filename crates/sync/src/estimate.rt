//! How far a pass is, and about how much is left of it.

ghost use Rattle.std.specs.Prelude.{◌≡◌, Some, option_and_then};
ghost use Rattle.sync.specs.Terminal.{estimate_of, estimate_text, left_of, reached_text, seconds_for, time_text};

use std::fmt;

/// How far a pass is.
#[derive(Clone, Copy)]
pub struct Reached {
    /// How many documents were pushed.
    pub sent: u64,
    /// The sequence of the source up to which changes were listed.
    pub sequence: u64,
    /// What is left, where it is known.
    pub left: Option<Estimate>,
}

/// About how much is left of a pass.
#[derive(Clone, Copy)]
pub struct Estimate {
    /// The changes, as the source's sequences count them.
    pub changes: u64,
    /// The seconds, where the pace is known.
    pub seconds: Option<u128>,
}

/// So many changes in so many milliseconds.
#[derive(Clone, Copy)]
pub struct Pace {
    pub changes: u64,
    pub millis: u64,
}

/// Estimates what is left where changes were listed up to a sequence, of a source that had another one before.
/// Nothing is known once that one is reached.
pub fn estimate_left(pace: Option<Pace>, reached: u64, update_seq: u64) -> Option<Estimate>
    ensures { result ≡ left_of pace reached update_seq }
{
    if reached >= update_seq {
        return None;
    }
    Some(estimate_time(pace, update_seq - reached))
}

/// Estimates how long so many changes take.
fn estimate_time(pace: Option<Pace>, changes: u64) -> Estimate
    ensures { result ≡ estimate_of pace changes }
{
    let seconds = match pace {
        Some(pace) => seconds_for(changes, pace),
        None => None,
    };
    Estimate { changes, seconds }
}

/// Returns the seconds that so many changes take at a pace, rounded up.
fn seconds_for(changes: u64, pace: Pace) -> Option<u128>
    ensures { result ≡ seconds_for changes pace }
{
    if pace.changes == 0 {
        return None;
    }
    let millis = changes as u128 * pace.millis as u128;
    Some(millis.div_ceil(pace.changes as u128 * 1000))
}

impl fmt::Display for Reached {
    ghost output = { λ r. Some (reached_text r) };

    fn fmt<W: fmt::Write>(&self, f: &mut fmt::Formatter<W>) -> fmt::Result {
        let Reached {
            sent,
            sequence,
            left,
        } = *self;
        write!(f, "{sent} documents sent, sequence {sequence}")?;
        match left {
            Some(left) => write!(f, ", about {left} left"),
            None => Ok(()),
        }
    }
}

impl fmt::Display for Estimate {
    ghost output = { λ e. Some (estimate_text e) };

    fn fmt<W: fmt::Write>(&self, f: &mut fmt::Formatter<W>) -> fmt::Result {
        let Estimate { changes, seconds } = *self;
        write!(f, "{changes} changes")?;
        match seconds.map(Time) {
            Some(time) => write!(f, " and {time}"),
            None => Ok(()),
        }
    }
}

/// A time in seconds.
#[derive(Clone, Copy)]
struct Time(u128);

impl fmt::Display for Time {
    ghost output = { λ t. Some (time_text t.0) };

    fn fmt<W: fmt::Write>(&self, f: &mut fmt::Formatter<W>) -> fmt::Result {
        let Time(seconds) = *self;
        let minutes = seconds / 60;
        if minutes == 0 {
            return write!(f, "{seconds} s");
        }
        let hours = minutes / 60;
        if hours == 0 {
            return write!(f, "{minutes} min");
        }
        let minutes = minutes % 60;
        write!(f, "{hours} h {minutes} min")
    }
}
