//! Two workers that wait for each other once each has a connection.
use crate::meeting::Meeting;
use crate::scripts::{is_answered, outside_of_two};
use crate::served::served;
use sidecar_serving::End;
use std::test::Fail;

const HEALTH: &[u8] = b"GET /v1.0/healthz HTTP/1.1\r\nHost: a\r\n\r\n";

const HEALTHY: &[u8] = b"HTTP/1.1 204 No Content\r\n\r\n";

// Each of two workers gets a connection, and then waits until the other has one too. Served one after the other, neither would find the other.
#[test]
fn two_workers_serve_side_by_side(rt: HostRuntime) -> Result<(), Fail> {
    let alloc = rt.alloc();
    let meeting = Meeting::new(rt);
    let mut outside = outside_of_two(alloc, HEALTH, HEALTH)?;
    let end = served(&rt, alloc, 0, 2, &meeting, &mut outside);
    assert!(rt; end == Some(End::Done));
    assert!(rt; meeting.is_met());
    assert!(rt; is_answered(&outside, 0, HEALTHY));
    assert!(rt; is_answered(&outside, 1, HEALTHY));
    Ok(())
}
