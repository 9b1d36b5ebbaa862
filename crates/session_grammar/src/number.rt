//! Numbers in decimal.
ghost use Rattle.std.specs.Prelude.{◌≡◌, ◌+◌, ◌^◌, ◌≤◌, ◌<◌, length, drop, codes, IfSome, true};
ghost use Rattle.std.specs.Str.{bytes_eq};
ghost use Rattle.session_grammar.specs.Grammar.{number_of_word, number_or_dash};
ghost use Rattle.session_grammar.specs.Reads.{first_word, with_digit, with_size, IsReadTo, IsReadIn, IsNumberAt, IsNumberThen, AreDigits, BeginsWithEight, IsDigit, four_value};

use crate::words::SPACE;

// The largest number of digits of a number, leading zeros included.
const DIGIT_LIMIT: usize = 20;

// The largest number of digits that always make a number below 2^64.
const SURE_DIGITS: usize = 19;

/// Returns the number that the text's first word holds, 1 to 20 digits below 2^64, and its size, or size 0 if it holds no
/// number.
pub fn number_at(text: &[u8]) -> (u64, usize)
    ensures value { IsNumberAt text.now result.0 result.1 }
    ensures within { result.1 ≤ length text.now }
{
    let mut value: u64 = 0;
    let mut size = 0;
    let sure = text.len().min(SURE_DIGITS);
    while size < sure {
        let b = text[size];
        if !b.is_ascii_digit() {
            if b == SPACE {
                return (value, size);
            }
            return (0, 0);
        }
        value = value * 10 + u64::from(b - b'0');
        size += 1;
    }
    if size == text.len() {
        return (value, size);
    }
    last_digit(text, value)
}

// Returns the number that the text's first word holds, given the value of its first 19 digits, and its size, or size 0 if it
// holds no number.
#[inline(never)]
fn last_digit(text: &[u8], value: u64) -> (u64, usize)
    requires { (19 < length text.now) × IsReadTo text.now (drop 19 text.now) 19 value }
    ensures value { IsNumberAt text.now result.0 result.1 }
    ensures within { result.1 ≤ length text.now }
{
    if text[SURE_DIGITS] == SPACE {
        return (value, SURE_DIGITS);
    }
    let Some(whole) = with_digit(value, text[SURE_DIGITS]) else {
        return (0, 0);
    };
    if text.len() > DIGIT_LIMIT && text[DIGIT_LIMIT] != SPACE {
        return (0, 0);
    }
    (whole, DIGIT_LIMIT)
}

// Returns a number with one more digit, or None if `b` is no digit or the number comes to 2^64.
fn with_digit(value: u64, b: u8) -> Option<u64>
    ensures { result ≡ with_digit value b }
{
    if !b.is_ascii_digit() {
        return None;
    }
    value.checked_mul(10)?.checked_add(u64::from(b - b'0'))
}

/// Returns the number that a word is: 1 to 20 digits below 2^64, or None if it is no number.
pub fn number_of(word: &[u8]) -> Option<u64>
    ensures { result ≡ number_of_word word.now }
{
    let (value, size) = number_at(word);
    if size == 0 || size < word.len() {
        return None;
    }
    Some(value)
}

/// Returns the digit that a byte is, if this byte is next. Both are compared at once, as one number.
#[inline(always)]
pub fn digit_then(byte: u8, next: u8, ender: u8) -> Option<u64>
    ensures { IfSome result (λ d. IsDigit byte d × (next ≡ ender)) }
{
    let both = u16::from(next) * 256 + u16::from(byte);
    let digit = both.wrapping_sub(u16::from(ender) * 256 + 48);
    if digit > 9 {
        return None;
    }
    Some(u64::from(digit))
}

/// Returns the number at a place of a text, if this byte ends it, and that byte's place; or the text's end if there is no
/// such number.
#[inline(always)]
pub fn number_then(text: &[u8], at: usize, ender: u8) -> (u64, usize)
    requires { at ≤ length text.now + 1 }
    ensures number { IsNumberThen text.now at ender result.0 result.1 }
    ensures within { result.1 ≤ length text.now }
{
    if at + 1 >= text.len() {
        return (0, text.len());
    }
    if let Some(digit) = digit_then(text[at], text[at + 1], ender) {
        return (digit, at + 1);
    }
    let (value, size) = digits_in(text, at);
    let end = at + size;
    if size == 0 || end == text.len() || text[end] != ender {
        return (0, text.len());
    }
    (value, end)
}

// Returns the value of the digits at a place, and their number: at most 20, with a value below 2^64. Eight digits are read at
// once, then up to three one by one, which are all that a number below 2^32 has, and then eight more.
fn digits_in(text: &[u8], at: usize) -> (u64, usize)
    requires { at ≤ length text.now }
    ensures { IsReadIn text.now at result.0 result.1 }
{
    if text.len() - at < DIGIT_LIMIT {
        return digits_on(text, at, 0, 0);
    }
    let Some(eight) = first_eight(&text[at..]) else {
        return digits_on(text, at, 0, 0);
    };
    let (value, size) = three_on(text, at, eight);
    if size < 11 {
        return (value, size);
    }
    let Some(eight) = first_eight(&text[at + 11..]) else {
        return digits_on(text, at, value, 11);
    };
    let value = value * 100_000_000 + eight;
    match with_digit(value, text[at + SURE_DIGITS]) {
        Some(whole) => (whole, DIGIT_LIMIT),
        None => (value, SURE_DIGITS),
    }
}

// Returns the value of the digits at a place, and their number, given those of the first few.
#[inline(never)]
fn digits_on(text: &[u8], at: usize, value: u64, size: usize) -> (u64, usize)
    requires { IsReadIn text.now at value size × (value < 10 ^ size) × (size ≤ 11) }
    ensures { IsReadIn text.now at result.0 result.1 }
{
    let sure = (text.len() - at).min(SURE_DIGITS);
    let (mut value, mut size) = (value, size);
    while size < sure {
        let b = u64::from(text[at + size]);
        if b < 48 || b > 57 {
            return (value, size);
        }
        value = value * 10 + (b - 48);
        size += 1;
    }
    if at + size == text.len() {
        return (value, size);
    }
    match with_digit(value, text[at + size]) {
        Some(whole) => (whole, size + 1),
        None => (value, size),
    }
}

// Returns the value of the eight digits that a text begins with, or None if it begins with fewer.
#[inline(always)]
fn first_eight(text: &[u8]) -> Option<u64>
    ensures { IfSome result (λ v. BeginsWithEight text.now v) }
{
    match text {
        [a, b, c, d, e, f, g, h, ..] => {
            if !(are_digits(*a, *b, *c, *d) & are_digits(*e, *f, *g, *h)) {
                return None;
            }
            let front = four_value(*a, *b, *c, *d);
            Some(front * 10_000 + four_value(*e, *f, *g, *h))
        }
        _ => None,
    }
}

// Tells whether four bytes are digits. It looks at each of them, so that the compiler compares them all at once.
#[inline(always)]
fn are_digits(a: u8, b: u8, c: u8, d: u8) -> bool
    ensures { result ≡ true → AreDigits a b c d }
{
    a.is_ascii_digit() & b.is_ascii_digit() & c.is_ascii_digit() & d.is_ascii_digit()
}

// Returns the value of four digits.
#[inline(always)]
fn four_value(a: u8, b: u8, c: u8, d: u8) -> u64
    requires { AreDigits a b c d }
    ensures { result ≡ four_value a b c d }
{
    let front = u64::from(a - b'0') * 10 + u64::from(b - b'0');
    (front * 10 + u64::from(c - b'0')) * 10 + u64::from(d - b'0')
}

// Returns the value of the digits at a place, and their number, given the value of the first eight: up to three more are read.
#[inline(always)]
fn three_on(text: &[u8], at: usize, value: u64) -> (u64, usize)
    requires { (at + 11 ≤ length text.now) × IsReadIn text.now at value 8 × (value < 10 ^ 8) }
    ensures { IsReadIn text.now at result.0 result.1 × (result.0 < 10 ^ result.1)
        × (result.1 ≤ 11) }
{
    let Some(digit) = digit_of(text[at + 8]) else {
        return (value, 8);
    };
    let value = value * 10 + digit;
    let Some(digit) = digit_of(text[at + 9]) else {
        return (value, 9);
    };
    let value = value * 10 + digit;
    let Some(digit) = digit_of(text[at + 10]) else {
        return (value, 10);
    };
    (value * 10 + digit, 11)
}

// Returns the digit that a byte is, or None if it is no digit.
#[inline(always)]
fn digit_of(b: u8) -> Option<u64>
    ensures { IfSome result (λ d. IsDigit b d) }
{
    if !b.is_ascii_digit() {
        return None;
    }
    Some(u64::from(b - b'0'))
}

/// Returns the number that the text's first word holds, or None from a `-`, and its size. Returns None if it holds neither.
pub(crate) fn number_or_dash_at(text: &[u8]) -> Option<(Option<u64>, usize)>
    ensures value { result ≡ with_size text.now (number_or_dash (first_word text.now)) }
    ensures within { IfSome result (λ r. r.1 ≤ length text.now) }
{
    if is_dash_at(text) {
        return Some((None, 1));
    }
    let (value, size) = number_at(text);
    if size == 0 {
        return None;
    }
    Some((Some(value), size))
}

// Tells whether the text's first word is `-`.
fn is_dash_at(text: &[u8]) -> bool
    ensures { result ≡ bytes_eq (first_word text.now) (codes "-") }
{
    match text {
        [b'-'] => true,
        [b'-', next, ..] => *next == SPACE,
        _ => false,
    }
}
