//! Responses that tell an error: a status, and a JSON body with the code of the error and a message.
#![tactic(auto)]

mod code;
mod response;
#[cfg(test)]
mod tests;

pub use code::Code;
pub use response::{error_response, json_fields, no_memory_response};
