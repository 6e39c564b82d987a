ghost use Rattle.std.specs.Prelude.{◌≡◌, ◌≤◌, ◌==◌, not, length, IfSome, IfNone};
ghost use Rattle.std.specs.List.{prefix_len};
ghost use Rattle.api_routes.specs.Path.{IsClean, IsFirstBad, is_bad_start, path_of, query_of, begins_with_digits};

const PERCENT: u8 = b'%';

const QUESTION: u8 = b'?';

/// The path of a request target: what stands before the first `?` (RFC 9112, section 3.2.1).
pub(crate) fn path_of(target: &[u8]) -> &[u8]
    ensures { result.now ≡ path_of target.now }
{
    let (path, _) = target.split_at(path_len(target));
    path
}

/// The query of a request target: what stands behind the first `?`, and nothing where there is none (RFC 9112, section 3.2.1; RFC 3986, section 3.4). It is not
/// decoded. Takes no memory.
pub fn query_of(target: &[u8]) -> &[u8]
    ensures { result.now ≡ query_of target.now }
{
    let (_, rest) = target.split_at(path_len(target));
    match rest {
        [] => rest,
        [_, query @ ..] => query,
    }
}

fn path_len(target: &[u8]) -> usize
    ensures value { result ≡ prefix_len (λ byte. not (byte == 63)) target.now }
    ensures within { result ≤ length target.now }
{
    target.iter().take_while(|byte| **byte != QUESTION).count()
}

/// Whether two hexadecimal digits stand at the front.
fn begins_with_digits(bytes: &[u8]) -> bool
    ensures { result ≡ begins_with_digits bytes.now }
{
    match bytes {
        [first, second, ..] => first.is_ascii_hexdigit() && second.is_ascii_hexdigit(),
        _ => false,
    }
}

/// Whether the first byte is one that no target has, or a `%` that begins no escape (RFC 3986, section 2.1).
fn is_bad_start(bytes: &[u8]) -> bool
    ensures { result ≡ is_bad_start bytes.now }
{
    match bytes {
        [] => false,
        [byte, rest @ ..] => {
            !byte.is_ascii_graphic() || (*byte == PERCENT && !begins_with_digits(rest))
        }
    }
}

/// The place of the first bad byte of a path.
pub(crate) fn bad_place(path: &[u8]) -> Option<usize>
    ensures some { IfSome result (IsFirstBad path.now) }
    ensures none { IfNone result (IsClean path.now) }
{
    for at in 0..path.len() {
        if is_bad_start(&path[at..]) {
            return Some(at);
        }
    }
    None
}
