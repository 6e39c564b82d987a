ghost use Rattle.std.specs.Prelude.{◌≡◌, ◌≤◌, ◌↔◌, ℕ, List, Some};
ghost use Rattle.side_base.specs.Limits.{greatest_duration};
ghost use Rattle.resource_spec.specs.Schedule.{SaysPeriod, duration_in, if_within, period_in};

use side_base::duration_ms;

/// The least period, in milliseconds.
const LEAST_PERIOD_MS: u64 = 1_000;

/// The period that a cron component's schedule says, in milliseconds: `@every ` and a duration of at least a second. `None` for
/// any other text. Takes no memory.
pub fn period_of(schedule: &[u8]) -> Option<u64>
    ensures { result ≡ period_in schedule.now }
{
    match schedule.strip_prefix(b"@every ") {
        Some(behind) => period_behind(behind),
        None => None,
    }
}

fn period_behind(text: &[u8]) -> Option<u64>
    ensures { result ≡ if_within (duration_in text.now) }
{
    match duration_ms(text) {
        Ok(ms) => at_least(ms),
        Err(_) => None,
    }
}

fn at_least(ms: u64) -> Option<u64>
    ensures { ms ≤ greatest_duration → result ≡ if_within (Some ms) }
{
    if ms >= LEAST_PERIOD_MS {
        Some(ms)
    } else {
        None
    }
}

/// A schedule has the period that its words say: `@every `, and a duration of a second to 8,760 hours.
pub fn a_schedule_says_its_period()
    ensures { (text : List ℕ) (ms : ℕ) → (period_in text ≡ Some ms) ↔ SaysPeriod text ms }
{}
