//! Tests of the client's side of HTTP/1.1: replies out of bytes in memory, and the bytes of requests.
#![tactic(auto)]

#[cfg(test)]
mod tests;
