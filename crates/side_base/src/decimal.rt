ghost use Rattle.std.specs.Prelude.{◌≡◌, ◌-◌, ◌^◌, ◌≤◌, min, length};
ghost use Rattle.std.specs.Str.Parse.{AllDigits, digits_value};
ghost use Rattle.side_base.specs.Decimal.{digits_at, after_digits};

/// Cuts `text` after the decimal digits that it begins with: they come first, then the rest.
pub fn split_digits(text: &[u8]) -> (&[u8], &[u8])
    ensures digits { result.0.now ≡ digits_at text.now }
    ensures rest { result.1.now ≡ after_digits text.now }
    ensures decimal { AllDigits 10 result.0.now }
{
    text.split_at(digits_len(text))
}

fn digits_len(text: &[u8]) -> usize
    ensures value { result ≡ length (digits_at text.now) }
    ensures within { result ≤ length text.now }
{
    text.iter().take_while(|b| b.is_ascii_digit()).count()
}

/// The number that decimal digits write, or the greatest `u64` where that is less; 0 for no digits.
pub fn number_of(digits: &[u8]) -> u64
    requires { AllDigits 10 digits.now }
    ensures { result ≡ min (digits_value 10 digits.now) (2 ^ 64 - 1) }
{
    let mut number = 0u64;
    for digit in digits {
        number = number
            .saturating_mul(10)
            .saturating_add(u64::from(*digit - b'0'));
    }
    number
}
