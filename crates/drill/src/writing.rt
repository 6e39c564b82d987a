ghost use Rattle.std.specs.Prelude.{◌≡◌, ◌++◌, OnOk};
ghost use Rattle.drill.specs.Requests.{key_text, save_text, posted, save_request, row_request, request_text};

use itoa::Buffer;
use side_base::{Blob, NoMemory};
use std::alloc::Global;

/// What a save that must find no row says behind its value.
const FIRST_WRITE: &[u8] = b",\"options\":{\"concurrency\":\"first-write\"}";

/// Appends the request that a word means.
///
/// Its two lowest bits are the kind of the request: a save, a get, a save that must find no row, a delete. The next four are the number of the key, and those
/// above them are the value of a save.
#[tactic(auto, unfolding(crate::specs::Requests::request_text))]
pub(crate) fn push_request(alloc: Global, out: &mut Blob, word: u64) -> Result<(), NoMemory>
    ensures { OnOk result (out.new ≡ out.old ++ request_text word) }
{
    let kind = word % 4;
    if kind == 0 {
        push_save(alloc, out, word, b"")
    } else if kind == 1 {
        push_row_request(out, word, b"GET")
    } else if kind == 2 {
        push_save(alloc, out, word, FIRST_WRITE)
    } else {
        push_row_request(out, word, b"DELETE")
    }
}

#[tactic(auto, unfolding(crate::specs::Requests::save_request))]
fn push_save(alloc: Global, out: &mut Blob, word: u64, options: &[u8]) -> Result<(), NoMemory>
    ensures { OnOk result (out.new ≡ out.old ++ save_request word options.now) }
{
    let mut content = Blob::new(alloc);
    push_save_text(&mut content, word, options)?;
    push_posted(out, content.bytes())
}

/// Appends the request that posts this content to the store.
fn push_posted(out: &mut Blob, content: &[u8]) -> Result<(), NoMemory>
    ensures { OnOk result (out.new ≡ out.old ++ posted content.now) }
{
    out.push(b"POST /v1.0/state/statestore HTTP/1.1\r\nHost: a\r\nContent-Length: ")?;
    out.push(Buffer::new().format(content.len()).as_bytes())?;
    out.push(b"\r\n\r\n")?;
    out.push(content)
}

/// Appends the body of a save of one item.
#[tactic(auto, unfolding(crate::specs::Requests::save_text))]
fn push_save_text(out: &mut Blob, word: u64, options: &[u8]) -> Result<(), NoMemory>
    ensures { OnOk result (out.new ≡ out.old ++ save_text word options.now) }
{
    out.push(b"[{\"key\":\"")?;
    push_key(out, word)?;
    out.push(b"\",\"value\":")?;
    out.push(Buffer::new().format(word / 64).as_bytes())?;
    out.push(options)?;
    out.push(b"}]")
}

/// Appends a request of the word's row, without content.
#[tactic(auto, unfolding(crate::specs::Requests::row_request))]
fn push_row_request(out: &mut Blob, word: u64, method: &[u8]) -> Result<(), NoMemory>
    ensures { OnOk result (out.new ≡ out.old ++ row_request method.now word) }
{
    out.push(method)?;
    out.push(b" /v1.0/state/statestore/")?;
    push_key(out, word)?;
    out.push(b" HTTP/1.1\r\nHost: a\r\n\r\n")
}

#[tactic(auto, unfolding(crate::specs::Requests::key_text))]
fn push_key(out: &mut Blob, word: u64) -> Result<(), NoMemory>
    ensures { OnOk result (out.new ≡ out.old ++ key_text word) }
{
    out.push(b"k")?;
    out.push(Buffer::new().format(word / 4 % 16).as_bytes())
}
