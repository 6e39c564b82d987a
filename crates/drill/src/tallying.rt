ghost use Rattle.std.specs.Prelude.{◌≡◌, ◌<◌, ◌≤◌, ◌+◌, ◌-◌, ◌^◌, ◌==◌, ℕ, List, ◌∷◌, ◌++◌, [], length, map, All, codes, decimal, unwrap_or, option_map};
ghost use Rattle.std.specs.List.{position};
ghost use Rattle.http.specs.StatusCode.{IsStatusCode};
ghost use Rattle.drill.specs.Answers.{Answer, HeadLine, IsHeadLine, Lacks, MayBeCounted, behind_name, counted, lines_text, status_of, tally_of, text_of, texts_of, told};

use side_base::{number_of, split_digits};

/// How many responses have which status.
#[derive(Clone, Copy, Debug, PartialEq, Eq)]
pub struct Tally {
    /// 200.
    pub ok: usize,
    /// 204.
    pub no_content: usize,
    /// 409.
    pub conflict: usize,
    /// Any other.
    pub other: usize,
}

/// The status of a response, and how many bytes it has.
#[derive(Clone, Copy)]
struct Counted {
    status: u16,
    len: usize,
}

/// How many bytes a head has, and how long the content is that it tells of.
#[derive(Clone, Copy)]
struct Head {
    len: usize,
    content: usize,
}

/// A line without its LF, and how many bytes it has with it.
#[derive(Clone, Copy)]
struct Line<'a> {
    text: &'a [u8],
    len: usize,
}

/// How many have which status of the responses that these bytes are, one behind the other. Takes no memory.
pub fn count_statuses(bytes: &[u8]) -> Tally
    ensures { (answers : List Answer) → All MayBeCounted answers → bytes.now ≡ texts_of answers → result ≡ tally_of (map status_of answers) }
{
    let mut tally = Tally {
        ok: 0,
        no_content: 0,
        conflict: 0,
        other: 0,
    };
    let mut at = 0;
    while at < bytes.len() {
        let answer = first_answer(&bytes[at..]);
        add(&mut tally, answer.status);
        at += answer.len;
    }
    tally
}

/// Counts one more response, of this status.
fn add(tally: &mut Tally, status: u16)
    requires { (tally.old.ok < 2 ^ 63) × (tally.old.no_content < 2 ^ 63) × (tally.old.conflict < 2 ^ 63) × (tally.old.other < 2 ^ 63) }
    ensures { tally.new ≡ counted status tally.old }
{
    match status {
        200 => tally.ok += 1,
        204 => tally.no_content += 1,
        409 => tally.conflict += 1,
        _ => tally.other += 1,
    }
}

/// The first of the responses that these bytes are.
fn first_answer(bytes: &[u8]) -> Counted
    requires { 0 < length bytes.now }
    ensures some { 0 < result.len }
    ensures within { result.len ≤ length bytes.now }
    ensures reads { (answer : Answer) (behind : List ℕ) → MayBeCounted answer → bytes.now ≡ text_of answer ++ behind → (result.status ≡ answer.response.status) × (result.len ≡ length (text_of answer)) }
{
    let head = head_of(bytes);
    let len = head.len.saturating_add(head.content).min(bytes.len());
    Counted {
        status: status_in(bytes),
        len,
    }
}

/// The three digits of a status line, as a number.
fn status_in(bytes: &[u8]) -> u16
    ensures { (status : ℕ) (behind : List ℕ) → IsStatusCode status → bytes.now ≡ codes "HTTP/1.1 " ++ (decimal status ++ behind) → result ≡ status }
{
    match bytes {
        [_, _, _, _, _, _, _, _, _, one, two, three, ..] => digit(*one) * 100
            + digit(*two) * 10
            + digit(*three),
        _ => 0,
    }
}

fn digit(byte: u8) -> u16
    ensures value { result ≡ byte - 48 }
    ensures few { result < 208 }
{
    u16::from(byte.saturating_sub(b'0'))
}

/// The head of the first of the responses that these bytes are: it ends with an empty line.
fn head_of(bytes: &[u8]) -> Head
    requires { 0 < length bytes.now }
    ensures some { 0 < result.len }
    ensures within { result.len ≤ length bytes.now }
    ensures reads { (lines : List HeadLine) (behind : List ℕ) → All IsHeadLine lines → bytes.now ≡ lines_text lines ++ 13 ∷ 10 ∷ behind → (result.len ≡ length (lines_text lines) + 2) × (result.content ≡ told 0 lines) }
{
    let mut head = Head { len: 0, content: 0 };
    while head.len < bytes.len() {
        let line = first_line(&bytes[head.len..]);
        head.len += line.len;
        if line.text == b"\r".as_slice() {
            return head;
        }
        head.content = length_or(head.content, line.text);
    }
    head
}

/// The first line; all bytes where none ends.
fn first_line(bytes: &[u8]) -> Line<'_>
    requires { 0 < length bytes.now }
    ensures some { 0 < result.len }
    ensures within { result.len ≤ length bytes.now }
    ensures cut { (text behind : List ℕ) → Lacks text → bytes.now ≡ text ++ 10 ∷ behind → (result.text.now ≡ text) × (result.len ≡ length text + 1) }
{
    match end_of(bytes) {
        Some(at) => Line {
            text: &bytes[..at],
            len: at + 1,
        },
        None => Line {
            text: bytes,
            len: bytes.len(),
        },
    }
}

fn end_of(bytes: &[u8]) -> Option<usize>
    ensures { result ≡ position (λ byte. byte == 10) bytes.now }
{
    bytes.iter().position(|byte| *byte == b'\n')
}

/// The length that a line tells, or else the one that was told before.
fn length_or(before: usize, line: &[u8]) -> usize
    ensures { (of : HeadLine) → IsHeadLine of → line.now ≡ of.text ++ 13 ∷ [] → result ≡ unwrap_or of.says before }
{
    match behind_name(line) {
        Some(text) => number_in(text),
        None => before,
    }
}

/// What stands behind the name of the field that tells the length of the content.
#[tactic(auto, unfolding(crate::specs::Answers::behind_name))]
fn behind_name(line: &[u8]) -> Option<&[u8]>
    ensures { option_map (λ text. text.now) result ≡ behind_name line.now }
{
    line.strip_prefix(b"Content-Length: ")
}

/// The number that the decimal digits at the beginning of a text write.
fn number_in(text: &[u8]) -> usize
    ensures { (n : ℕ) → n < 2 ^ 63 → text.now ≡ decimal n ++ 13 ∷ [] → result ≡ n }
{
    let (digits, _) = split_digits(text);
    number_of(digits) as usize
}
