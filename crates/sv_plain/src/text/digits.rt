//! Numbers that digits spell, and which bytes are digits of bytes.
ghost use Rattle.std.specs.Prelude.{◌≡◌, ◌≤◌, IfSome};
ghost use Rattle.std.specs.List.{list_all};
ghost use Rattle.sv_plain.specs.Digits.{has_leading_zero, is_lower_hex, number_of, value_of};

/// The number that a word is, of at most so much, in that base, without sign or leading zero.
pub fn number_of(word: &[u8], base: u32, most: u64) -> Option<u64>
    requires least { 2 ≤ base }
    requires greatest { base ≤ 10 }
    ensures value { result ≡ number_of base most word.now }
    ensures most { IfSome result (λ n. n ≤ most) }
{
    if has_leading_zero(word) {
        return None;
    }
    value_of(word, base, most)
}

fn has_leading_zero(word: &[u8]) -> bool
    ensures { result ≡ has_leading_zero word.now }
{
    word.len() > 1 && word[0] == b'0'
}

/// The same where zeros may stand before it.
pub fn value_of(word: &[u8], base: u32, most: u64) -> Option<u64>
    requires least { 2 ≤ base }
    requires greatest { base ≤ 10 }
    ensures value { result ≡ value_of base most word.now }
    ensures most { IfSome result (λ n. n ≤ most) }
{
    if word.is_empty() {
        return None;
    }
    let mut value: u128 = 0;
    for byte in word {
        let Some(digit) = char::from(*byte).to_digit(base) else {
            return None;
        };
        value = value * u128::from(base) + u128::from(digit);
        if value > u128::from(most) {
            return None;
        }
    }
    Some(value as u64)
}

/// Whether all bytes of a word are lower case hexadecimal digits.
pub fn are_lower_hex(word: &[u8]) -> bool
    ensures { result ≡ list_all is_lower_hex word.now }
{
    word.iter().all(|b| matches!(*b, b'0'..=b'9' | b'a'..=b'f'))
}
