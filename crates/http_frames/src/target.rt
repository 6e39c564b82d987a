ghost use Rattle.std.specs.Prelude.{◌≡◌, ◌≤◌, length};
ghost use Rattle.std.specs.List.{prefix_len, list_all};
ghost use Rattle.httparse.specs.Grammar.{is_token_byte, is_uri_byte};
ghost use Rattle.http_frames.specs.InTarget.{after_blank, is_target_open, token_len, ends_in_target};

use httparse::{is_method_token, is_uri_token};

const SPACE: u8 = b' ';

const CR: u8 = b'\r';

const LF: u8 = b'\n';

/// Whether the bytes end inside a request target: after the method and one space, and before any other space.
#[tactic(auto, unfolding(crate::specs::InTarget::ends_in_target))]
pub(crate) fn ends_in_target(text: &[u8]) -> bool
    ensures { result ≡ ends_in_target text.now }
{
    let line = after_blank(text);
    let method = token_len(line);
    method > 0 && is_target_open(&line[method..])
}

/// What follows the empty lines at the front.
#[tactic(auto, unfolding(crate::specs::InTarget::after_blank))]
pub(crate) fn after_blank(text: &[u8]) -> &[u8]
    ensures { result.now ≡ after_blank text.now }
{
    let mut rest = text;
    loop {
        rest = match rest {
            [LF, after @ ..] => after,
            [CR, LF, after @ ..] => after,
            _ => return rest,
        };
    }
}

fn token_len(bytes: &[u8]) -> usize
    ensures token { result ≡ token_len bytes.now }
    ensures within { result ≤ length bytes.now }
{
    let mut len = 0;
    for byte in bytes {
        if !is_method_token(*byte) {
            return len;
        }
        len += 1;
    }
    len
}

#[tactic(auto, unfolding(crate::specs::InTarget::is_target_open))]
fn is_target_open(bytes: &[u8]) -> bool
    ensures { result ≡ is_target_open bytes.now }
{
    match bytes {
        [SPACE, target @ ..] => are_uri_bytes(target),
        _ => false,
    }
}

pub(crate) fn are_uri_bytes(bytes: &[u8]) -> bool
    ensures { result ≡ list_all is_uri_byte bytes.now }
{
    bytes.iter().all(|byte| is_uri_token(*byte))
}
