// Words of a line, and the numbers that they say.

pub fn ends_a_word(byte: u8) -> bool {
    matches!(byte, b' ' | b',' | b':' | b'*' | b'\n')
}

// No list takes a number of more than twelve digits.
const LONG: u64 = 100_000_000_000;

fn with_digit(n: u64, byte: u8) -> Option<u64> {
    if byte.is_ascii_digit() && n < LONG {
        Some(n * 10 + u64::from(byte - b'0'))
    } else {
        None
    }
}

pub fn number(word: &[u8]) -> Option<u64> {
    if word.is_empty() {
        return None;
    }
    let mut n = 0;
    for &byte in word {
        n = with_digit(n, byte)?;
    }
    Some(n)
}

// A number that may have a minus sign.
pub fn signed(word: &[u8]) -> Option<i64> {
    match word.strip_prefix(b"-") {
        Some(rest) => i64::try_from(number(rest)?).ok()?.checked_neg(),
        None => i64::try_from(number(word)?).ok(),
    }
}
