use super::{Device, cut, digits, list, number_in, plays, said};
use side_base::{Blob, Moment, NoMemory};
use side_memory::MemoryClock;
use side_world::Clock;
use std::alloc::Global;
use std::test::Fail;

// `new` begins one at a moment, which goes on by the listed steps.
impl Device for MemoryClock {
    fn begin(alloc: Global, given: &str) -> Result<MemoryClock, NoMemory> {
        let (first, steps) = cut(given);
        let steps = list(alloc, steps)?;
        match Moment::at(number_in(first)) {
            Some(first) => Ok(MemoryClock::new(alloc, first, steps)),
            None => Err(NoMemory),
        }
    }

    fn answer(&mut self, alloc: Global, name: &str, given: &str) -> Result<Blob, NoMemory> {
        match name {
            "pause" => {
                self.pause(number_in(given));
                Ok(Blob::new(alloc))
            }
            "now" => digits(alloc, self.now().ms()),
            _ => said(alloc, "unknown"),
        }
    }
}

// A clock goes by its steps and pauses, and stands at the last moment.
const READINGS: &str = "\
new 1000
now=1000
pause 5
now=1005
pause 5
now=1010
new 1000 70
now=1007
pause 20
now=1027
pause 20
now=1047
new 1000
now=1000
pause 18446744073709551615
now=253402300799999
pause 18446744073709551615
now=253402300799999";

#[test]
fn a_clock_goes_by_its_steps_and_pauses(rt: HostRuntime) -> Result<(), Fail> {
    Ok(plays::<MemoryClock, _>(&rt, rt.alloc(), READINGS)?)
}
