// Hexadecimal digits, and the surrogates among the units that numbered escapes write (Unicode, section 3.8).
ghost use Rattle.std.specs.Prelude.{◌≡◌, ◌<◌, ◌≤◌, IsTrue, SomeIff};
ghost use Rattle.byte_lanes.specs.Spelling.{hex_digit as written_digit};
ghost use Rattle.json_lexemes.specs.Lexeme.{is_hex_digit, hex_value, is_high_surrogate, is_low_surrogate};

/// The least high surrogate.
pub(crate) const FIRST_HIGH: u32 = 0xd800;

const LAST_HIGH: u32 = 0xdbff;
/// The least low surrogate.
pub(crate) const FIRST_LOW: u32 = 0xdc00;

const LAST_LOW: u32 = 0xdfff;

/// The value of a hexadecimal digit, in either case.
pub(crate) fn hex_digit(byte: u8) -> Option<u8>
    ensures { SomeIff result (IsTrue (is_hex_digit byte)) (hex_value byte) }
{
    match byte {
        b'0'..=b'9' => Some(byte - b'0'),
        b'A'..=b'F' => Some(byte - b'A' + 10),
        b'a'..=b'f' => Some(byte - b'a' + 10),
        _ => None,
    }
}

/// Whether a byte is a hexadecimal digit.
pub(crate) fn is_hex(byte: u8) -> bool
    ensures { result ≡ is_hex_digit byte }
{
    byte.is_ascii_digit() || (byte >= b'A' && byte <= b'F') || (byte >= b'a' && byte <= b'f')
}

/// The value of a byte that is a hexadecimal digit.
pub(crate) fn value_of(byte: u8) -> u32
    ensures exact { result ≡ hex_value byte }
    ensures bound { result ≤ 255 }
{
    if byte.is_ascii_digit() {
        (byte - b'0') as u32
    } else if byte >= b'A' && byte <= b'F' {
        (byte - b'A' + 10) as u32
    } else {
        byte.saturating_sub(b'a' - 10) as u32
    }
}

/// The digit of a value, as it is written: in lower case.
pub(crate) fn digit_of(value: u8) -> u8
    requires { value < 16 }
    ensures { result ≡ written_digit value }
{
    if value < 10 {
        value + b'0'
    } else {
        value + (b'a' - 10)
    }
}

/// Whether a unit is a high surrogate.
pub(crate) fn is_high(unit: u32) -> bool
    ensures { result ≡ is_high_surrogate unit }
{
    unit >= FIRST_HIGH && unit <= LAST_HIGH
}

/// Whether a unit is a low surrogate.
pub(crate) fn is_low(unit: u32) -> bool
    ensures { result ≡ is_low_surrogate unit }
{
    unit >= FIRST_LOW && unit <= LAST_LOW
}
