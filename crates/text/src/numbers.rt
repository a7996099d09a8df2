// Unsigned 64-bit numbers of a text.
ghost use Rattle.std.specs.Prelude.{◌≡◌};
ghost use Rattle.text.specs.Numbers.{number_of, digits, parse_usize};

/// The base of the numbers.
pub const BASE: usize = 10;

/// The figure that the definitions mean where they name it. A law: it does nothing when it runs.
pub fn decimal_base()
    ensures { BASE ≡ 10 }
{}

/// A number of one digit or more; `None` where another byte stands, or the number has more than 64 bits.
pub fn parse_digits(bytes: &[u8]) -> Option<usize>
    ensures { number_of result ≡ digits bytes.now }
{
    if bytes.is_empty() {
        return None;
    }
    let mut v: usize = 0;
    for &b in bytes {
        if !b.is_ascii_digit() {
            return None;
        }
        v = v.checked_mul(BASE)?.checked_add(usize::from(b - b'0'))?;
    }
    Some(v)
}

/// A `+`, if there is one, and digits.
pub fn parse_usize(bytes: &[u8]) -> Option<usize>
    ensures { number_of result ≡ parse_usize bytes.now }
{
    match bytes.strip_prefix(b"+") {
        Some(rest) => parse_digits(rest),
        None => parse_digits(bytes),
    }
}
