ghost use Rattle.std.specs.Prelude.{◌≡◌, ◌∷◌, ◌≤◌, length, option_map};
ghost use Rattle.std.specs.List.{list_all};
ghost use Rattle.resource_spec.specs.Url.{is_host_byte, is_path_byte, is_path, host_at, with_path, behind_host, behind_scheme, address_of, url_shown};

use side_base::{number_of, split_digits};

/// Where an output binding sends its requests: a host, a port and a path, which is empty or begins with a slash.
#[derive(Clone, Copy, Debug)]
pub struct Url<'a> {
    pub host: &'a [u8],
    pub port: u16,
    pub path: &'a [u8],
}

fn is_host(byte: u8) -> bool
    ensures { result ≡ is_host_byte byte }
{
    byte.is_ascii_alphanumeric() || byte == b'-' || byte == b'.'
}

fn is_printed(byte: u8) -> bool
    ensures { result ≡ is_path_byte byte }
{
    33 <= byte && byte <= 126
}

fn are_printed(text: &[u8]) -> bool
    ensures { result ≡ list_all is_path_byte text.now }
{
    text.iter().all(|byte| is_printed(*byte))
}

fn host_len(text: &[u8]) -> usize
    ensures exact { result ≡ length (host_at text.now) }
    ensures inside { result ≤ length text.now }
{
    text.iter().take_while(|byte| is_host(**byte)).count()
}

fn is_path_text(text: &[u8]) -> bool
    ensures { result ≡ is_path text.now }
{
    match text.split_first() {
        Some((first, others)) => *first == b'/' && are_printed(others),
        None => true,
    }
}

fn url_with_path<'a>(host: &'a [u8], port: u16, path: &'a [u8]) -> Option<Url<'a>>
    ensures { option_map url_shown result ≡ with_path host.now port path.now }
{
    if is_path_text(path) {
        Some(Url { host, port, path })
    } else {
        None
    }
}

fn url_with_port<'a>(host: &'a [u8], text: &'a [u8]) -> Option<Url<'a>>
    ensures { option_map url_shown result ≡ behind_host host.now (58 ∷ text.now) }
{
    let (digits, path) = split_digits(text);
    let number = number_of(digits);
    if 1 <= number && number <= 65535 {
        url_with_path(host, number as u16, path)
    } else {
        None
    }
}

fn url_behind_host<'a>(host: &'a [u8], text: &'a [u8]) -> Option<Url<'a>>
    ensures { option_map url_shown result ≡ behind_host host.now text.now }
{
    match text.split_first() {
        Some((first, others)) => {
            if *first == b':' {
                url_with_port(host, others)
            } else {
                url_with_path(host, 80, text)
            }
        }
        None => url_with_path(host, 80, text),
    }
}

fn url_behind_scheme(text: &[u8]) -> Option<Url<'_>>
    ensures { option_map url_shown result ≡ behind_scheme text.now }
{
    let (host, others) = text.split_at(host_len(text));
    if 1 <= host.len() && host.len() <= 253 {
        url_behind_host(host, others)
    } else {
        None
    }
}

/// The address that a text is: `http://`, a host of 1 to 253 letters, digits, `-` or `.`, a colon and a port from 1 to 65535 in
/// decimal digits, or port 80 without them, and a path that is empty or begins with a slash and holds the bytes from `!` to `~`.
/// `None` for any other text. Takes no memory.
pub fn url_of(text: &[u8]) -> Option<Url<'_>>
    ensures { option_map url_shown result ≡ address_of text.now }
{
    match text.strip_prefix(b"http://") {
        Some(others) => url_behind_scheme(others),
        None => None,
    }
}
