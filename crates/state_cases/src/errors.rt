// Errors by their codes.

use crate::given::{number, text_in};
use crate::response_text::told;
use api_error::{Code, error_response};
use case_text::first_word;
use side_base::Text;
use std::alloc::Global;

const CODES: [Code; 21] = [
    Code::BadRequest,
    Code::NotFound,
    Code::MethodNotAllowed,
    Code::MalformedRequest,
    Code::StateStoreNotFound,
    Code::StateGet,
    Code::StateBulkGet,
    Code::StateSave,
    Code::StateDelete,
    Code::StateTransaction,
    Code::DirectInvoke,
    Code::InvokeOutputBinding,
    Code::PubsubNotFound,
    Code::PubsubForbidden,
    Code::PubsubCloudEventsSer,
    Code::PubsubPublishMessage,
    Code::ActorInvokeMethod,
    Code::ActorState,
    Code::MetadataFull,
    Code::Spent,
    Code::NoMemory,
];

fn code_of(name: &str) -> Option<Code> {
    for code in CODES {
        if code.name() == name {
            return Some(code);
        }
    }
    None
}

/// The response of a status and a code, with a message, as a text.
pub(crate) fn error(alloc: Global, words: &str, message: &[u8]) -> Text {
    let (status, name) = first_word(words);
    let status = u16::try_from(number(status)).unwrap_or(0);
    let message = text_in(alloc, message);
    match code_of(name) {
        Some(code) => told(alloc, error_response(alloc, status, code, message.as_str())),
        None => Text::from_static(alloc, "no such code\n"),
    }
}
