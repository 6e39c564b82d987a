use crate::{Code, error_response, no_memory_response};
use std::test::Fail;

#[test]
fn an_error_is_a_json_body(rt: HostRuntime) -> Result<(), Fail> {
    let response = error_response(rt.alloc(), 409, Code::StateSave, "refused 0")?;
    assert_eq!(rt; response.status, 409);
    assert_eq!(rt; response.fields.len(), 1);
    assert_eq!(rt;
        response.body.bytes(),
        b"{\"errorCode\":\"ERR_STATE_SAVE\",\"message\":\"refused 0\"}".as_slice()
    );
    let quoted = error_response(
        rt.alloc(),
        404,
        Code::PubsubNotFound,
        "pubsub \"a\" is not found",
    )?;
    assert_eq!(rt;
        quoted.body.bytes(),
        b"{\"errorCode\":\"ERR_PUBSUB_NOT_FOUND\",\"message\":\"pubsub \\\"a\\\" is not found\"}".as_slice()
    );
    Ok(())
}

#[test]
fn the_last_response_needs_no_memory(rt: HostRuntime) {
    let bytes = no_memory_response();
    assert!(rt; bytes.starts_with(b"HTTP/1.1 503 Service Unavailable\r\n"));
    assert!(rt;
        bytes.ends_with(b"\r\n\r\n{\"errorCode\":\"ERR_NO_MEMORY\",\"message\":\"no memory\"} ")
    );
}
