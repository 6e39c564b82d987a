use crate::{count_statuses, requests};
use std::test::Fail;

/// The first four requests of the drill 0, as a program of its own wrote them by the same rules.
const FOUR: &[u8] =
    b"DELETE /v1.0/state/statestore/k4 HTTP/1.1\r\nHost: a\r\n\r\nDELETE /v1.0/state/statestore/k14 HTTP/1.1\r\nHost: a\r\n\r\nGET /v1.0/state/statestore/k12 HTTP/1.1\r\nHost: a\r\n\r\nPOST /v1.0/state/statestore HTTP/1.1\r\nHost: a\r\nContent-Length: 80\r\n\r\n[{\"key\":\"k6\",\"value\":11219947258668703,\"options\":{\"concurrency\":\"first-write\"}}]";

#[test]
fn four_requests_are_those_of_an_independent_program(rt: HostRuntime) -> Result<(), Fail> {
    assert_eq!(rt; requests(rt.alloc(), 0, 4)?.bytes(), FOUR);
    assert!(rt; requests(rt.alloc(), 1, 0)?.is_empty());
    Ok(())
}

#[test]
fn statuses_are_counted_by_whole_responses(rt: HostRuntime) -> Result<(), Fail> {
    let tally = count_statuses(
        b"HTTP/1.1 204 No Content\r\n\r\nHTTP/1.1 200 OK\r\nContent-Type: a\r\nContent-Length: 12\r\n\r\nHTTP/1.1 204HTTP/1.1 409 Conflict\r\nContent-Length: 0\r\nConnection: close\r\n\r\nHTTP/1.1 500 Internal Server Error\r\nContent-Length: 1\r\n\r\nx",
    );
    assert!(rt; tally.ok == 1 && tally.no_content == 1 && tally.conflict == 1 && tally.other == 1);
    Ok(())
}
