//! What a field spells.

ghost use Rattle.std.specs.Prelude.{◌≡◌, ◌≤◌, true, false, length, take, MatchOption};
ghost use Rattle.std.specs.List.{list_all};
ghost use Rattle.std.specs.Char.{is_ascii_digit, digit_value};
ghost use Rattle.nam_text.specs.Fields.{IsLeading};
ghost use Rattle.nam_text.specs.Token.{is_led, with_digit, number_of, is_name, is_name_byte};

/// A number as it is spelt: none where it is above 2^64 - 1.
pub type Number = Option<u64>;

/// Is it not empty, and without a leading zero, 0 alone excepted?
pub(crate) fn is_led(field: &[u8]) -> bool
    ensures { result ≡ is_led field.now }
{
    if field.is_empty() {
        return false;
    }
    field[0] != b'0' || field.len() == 1
}

/// The value of a digit.
#[tactic(auto, using(crate::proofs::Digits::digit_is))]
pub(crate) fn digit_of(byte: u8) -> Option<u8>
    ensures { MatchOption result (is_ascii_digit byte ≡ false) (λ digit.
        (is_ascii_digit byte ≡ true) × (digit ≡ digit_value byte)) }
{
    if byte.is_ascii_digit() {
        Some(byte - b'0')
    } else {
        None
    }
}

/// A number with one digit more. None where it is above 2^64 - 1.
fn with_digit(number: Number, digit: u8) -> Number
    ensures { result ≡ with_digit number digit }
{
    number?.checked_mul(10)?.checked_add(u64::from(digit))
}

/// The number that the first digits spell, and how many these are, 19 at the most.
pub(crate) fn leading_digits(text: &[u8]) -> (u64, usize)
    ensures { IsLeading text.now result.0 result.1 }
{
    let mut number = 0;
    let mut end = 0;
    while end < 19 && end < text.len() {
        let Some(digit) = digit_of(text[end]) else {
            break;
        };
        number = number * 10 + u64::from(digit);
        end += 1;
    }
    (number, end)
}

/// The number that any digits spell.
fn long_number(field: &[u8]) -> Option<Number>
    requires { is_led field.now ≡ true }
    ensures { result ≡ number_of field.now }
{
    let mut value = Some(0);
    for byte in field {
        value = with_digit(value, digit_of(*byte)?);
    }
    Some(value)
}

/// The number that a field spells in decimal digits, without a leading zero. None where it spells no number.
#[tactic(auto, using(crate::proofs::Digits::not_led))]
pub fn number(field: &[u8]) -> Option<Number>
    ensures { result ≡ number_of field.now }
{
    if !is_led(field) {
        return None;
    }
    let (value, count) = leading_digits(field);
    if count == field.len() {
        Some(Some(value))
    } else {
        long_number(field)
    }
}

fn is_name_byte(byte: u8) -> bool
    ensures { result ≡ is_name_byte byte }
{
    byte.is_ascii_lowercase() || byte.is_ascii_digit() || byte == b'_'
}

/// How many bytes of names a text begins with.
pub(crate) fn leading_name(text: &[u8]) -> usize
    ensures within { result ≤ length text.now }
    ensures all { list_all is_name_byte (take result text.now) ≡ true }
{
    let mut end = 0;
    while end < text.len() && is_name_byte(text[end]) {
        end += 1;
    }
    end
}

fn all_name_bytes(field: &[u8]) -> bool
    ensures { result ≡ list_all is_name_byte field.now }
{
    field.iter().all(|byte| is_name_byte(*byte))
}

/// Is it 1 to 16 characters: a letter a to z, then letters, digits or underscores?
pub fn is_name(field: &[u8]) -> bool
    ensures { result ≡ is_name field.now }
{
    if field.is_empty() || field.len() > 16 {
        return false;
    }
    field[0].is_ascii_lowercase() && all_name_bytes(field)
}
