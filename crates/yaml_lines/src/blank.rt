// White space, comments and marks.
ghost use Rattle.std.specs.Prelude.{◌≡◌, ◌≤◌, ◌||◌, length, drop};
ghost use Rattle.yaml_lines.specs.Blank.{is_white, spaces_of, whites_of, is_tail, is_mark, is_passed_over, is_blank_line, begins_with, is_end, is_mark_tail};

/// A space, the only byte of an indent.
pub(crate) const SPACE: u8 = b' ';
/// A tab.
pub(crate) const TAB: u8 = b'\t';
/// What begins a comment.
pub(crate) const HASH: u8 = b'#';

/// A space or a tab.
pub(crate) fn is_white_byte(byte: u8) -> bool
    ensures { result ≡ is_white byte }
{
    byte == SPACE || byte == TAB
}

/// How many spaces the bytes begin with.
#[tactic(auto, using(crate::proofs::Blanks::take_while_le))]
pub(crate) fn leading_spaces(bytes: &[u8]) -> usize
    ensures exact { result ≡ spaces_of bytes.now }
    ensures inside { result ≤ length bytes.now }
{
    bytes.iter().take_while(|byte| **byte == SPACE).count()
}

/// How many spaces and tabs the bytes begin with.
#[tactic(auto, using(crate::proofs::Blanks::take_while_le))]
pub(crate) fn leading_whites(bytes: &[u8]) -> usize
    ensures exact { result ≡ whites_of bytes.now }
    ensures inside { result ≤ length bytes.now }
{
    bytes
        .iter()
        .take_while(|byte| is_white_byte(**byte))
        .count()
}

/// Whether this byte comes first.
pub(crate) fn begins(bytes: &[u8], byte: u8) -> bool
    ensures { result ≡ begins_with byte bytes.now }
{
    match bytes.split_first() {
        Some((first, _)) => *first == byte,
        None => false,
    }
}

/// Whether nothing is left but spaces, tabs and a comment, which begins after a space.
#[tactic(auto, unfolding(crate::specs::Blank::is_tail))]
pub(crate) fn is_tail_of(bytes: &[u8]) -> bool
    ensures { result ≡ is_tail bytes.now }
{
    let count = leading_whites(bytes);
    let rest = &bytes[count..];
    rest.is_empty() || (begins(rest, HASH) && count > 0 && bytes[count - 1] == SPACE)
}

#[tactic(auto, unfolding(crate::specs::Blank::is_mark_tail))]
fn is_tail_of_mark(bytes: &[u8]) -> bool
    ensures { result ≡ is_mark_tail bytes.now }
{
    let count = leading_spaces(bytes);
    let rest = &bytes[count..];
    rest.is_empty() || (begins(rest, HASH) && count > 0)
}

/// Whether the line begins or ends a document.
#[tactic(auto, unfolding(crate::specs::Blank::is_mark))]
pub fn is_mark_line(line: &[u8]) -> bool
    ensures { result ≡ is_mark line.now }
{
    if line.len() < 3 {
        return false;
    }
    let (mark, rest) = line.split_at(3);
    (mark == b"---".as_slice() || mark == b"...".as_slice()) && is_tail_of_mark(rest)
}

/// Whether the line is of spaces alone.
#[tactic(auto, unfolding(crate::specs::Blank::is_blank_line))]
pub(crate) fn is_blank(line: &[u8]) -> bool
    ensures { result ≡ is_blank_line line.now }
{
    line[leading_spaces(line)..].is_empty()
}

/// Whether the line has no content.
#[tactic(auto, unfolding(crate::specs::Blank::is_passed_over))]
pub fn has_no_content(line: &[u8]) -> bool
    ensures { result ≡ is_passed_over line.now }
{
    let rest = &line[leading_spaces(line)..];
    rest.is_empty() || begins(rest, HASH)
}
