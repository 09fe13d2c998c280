//! What a field is as a number.

ghost use Rattle.std.specs.Prelude.{◌≡◌, ◌≤◌, Some, None, length, if◌then◌else◌};
ghost use Rattle.std.specs.List.{list_all};
ghost use Rattle.std.specs.Str.Parse.{digits_value};
ghost use Rattle.hg_base.specs.declared.number.TheConstants.{MOST_SAFE_DIGITS};
ghost use Rattle.hg_base.specs.Number.{integer_of, is_between, is_digit, is_no, is_over, leads_with_zero, minus, natural_of, plus, value_of};

/// What a field is as a number of 64 bits without a sign.
#[derive(Clone, Copy)]
pub enum Natural {
    /// Not written as a number.
    No,
    /// A greater number.
    Over,
    Is(u64),
}

/// What a field is as a number of 64 bits that may have a minus.
#[derive(Clone, Copy)]
pub enum Integer {
    No,
    Over,
    Is(i64),
}

impl Natural {
    pub fn is_no(self) -> bool
        ensures { result ≡ is_no self }
    {
        match self {
            Natural::No => true,
            Natural::Over => false,
            Natural::Is(_) => false,
        }
    }

    pub fn is_over(self) -> bool
        ensures { result ≡ is_over self }
    {
        match self {
            Natural::No => false,
            Natural::Over => true,
            Natural::Is(_) => false,
        }
    }

    pub fn is_between(self, low: u64, high: u64) -> bool
        ensures { result ≡ is_between low high self }
    {
        match self {
            Natural::No => false,
            Natural::Over => false,
            Natural::Is(number) => low <= number && number <= high,
        }
    }

    /// The number, and 0 where it is none.
    pub fn value(self) -> u64
        ensures { result ≡ value_of self }
    {
        match self {
            Natural::No => 0,
            Natural::Over => 0,
            Natural::Is(number) => number,
        }
    }

    fn plus(self) -> Integer
        ensures { result ≡ plus self }
    {
        match self {
            Natural::No => Integer::No,
            Natural::Over => Integer::Over,
            Natural::Is(number) => {
                if number < 1 << 63 {
                    Integer::Is(number as i64)
                } else {
                    Integer::Over
                }
            }
        }
    }

    fn minus(self) -> Integer
        ensures { result ≡ minus self }
    {
        match self {
            Natural::No => Integer::No,
            Natural::Over => Integer::Over,
            Natural::Is(number) => {
                if number == 0 {
                    Integer::No
                } else if number < 1 << 63 {
                    Integer::Is(-(number as i64))
                } else if number == 1 << 63 {
                    Integer::Is(i64::MIN)
                } else {
                    Integer::Over
                }
            }
        }
    }
}

fn is_digit(c: u8) -> bool
    ensures { result ≡ is_digit c }
{
    c >= b'0' && c <= b'9'
}

fn has_digits_alone(text: &[u8]) -> bool
    ensures { result ≡ list_all is_digit text.now }
{
    text.iter().all(|c| is_digit(*c))
}

fn leads_with_zero(text: &[u8]) -> bool
    ensures { result ≡ leads_with_zero text.now }
{
    text.len() > 1 && text[0] == b'0'
}

// A number of any length. It is read twice, and each sum is tested.
fn read_long(text: &[u8]) -> Natural
    requires { 1 ≤ length text.now }
    ensures { result ≡ natural_of text.now }
{
    if leads_with_zero(text) || !has_digits_alone(text) {
        return Natural::No;
    }
    let mut value: u64 = 0;
    for c in text {
        let digit = (*c - b'0') as u64;
        if value > (u64::MAX - digit) / 10 {
            return Natural::Over;
        }
        value = value * 10 + digit;
    }
    Natural::Is(value)
}

// What so few digits write, where all are digits: no sum passes 64 bits.
fn short_value(text: &[u8]) -> Option<u64>
    requires { length text.now ≤ MOST_SAFE_DIGITS }
    ensures { result ≡
        (if list_all is_digit text.now then Some (digits_value 10 text.now) else None) }
{
    let mut value: u64 = 0;
    for c in text {
        if !is_digit(*c) {
            return None;
        }
        value = value * 10 + (*c - b'0') as u64;
    }
    Some(value)
}

// 10 ^ 19 is less than 2 ^ 64.
const MOST_SAFE_DIGITS: usize = 19;

/// Reads a number of 64 bits without a sign.
pub fn read_natural(text: &[u8]) -> Natural
    ensures { result ≡ natural_of text.now }
{
    if text.is_empty() || leads_with_zero(text) {
        return Natural::No;
    }
    if text.len() > MOST_SAFE_DIGITS {
        return read_long(text);
    }
    match short_value(text) {
        Some(value) => Natural::Is(value),
        None => Natural::No,
    }
}

/// Reads a number of 64 bits that may have a minus.
pub fn read_integer(text: &[u8]) -> Integer
    ensures { result ≡ integer_of text.now }
{
    if text.len() > 0 && text[0] == b'-' {
        return read_natural(&text[1..]).minus();
    }
    read_natural(text).plus()
}
