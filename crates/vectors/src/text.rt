// Words and figures of a line. Every function takes any bytes.

// The k-th word from 0 on, empty where there are fewer; one space parts two words.
pub fn word(s: &[u8], k: usize) -> &[u8] {
    match s.split(|b| *b == b' ').nth(k) {
        Some(word) => word,
        None => &s[..0],
    }
}

// The number that a text's digits say in a base up to 16; none where it is no such text or the number has no 64 bits.
pub fn number_of(s: &[u8], base: u8) -> Option<u64> {
    let mut x: u64 = 0;
    for b in s {
        let more = x.checked_mul(u64::from(base))?;
        x = more.checked_add(u64::from(digit(*b, base)?))?;
    }
    if s.is_empty() { None } else { Some(x) }
}

// What a digit of the base is worth.
fn digit(b: u8, base: u8) -> Option<u8> {
    let d = match b {
        b'0'..=b'9' => b - b'0',
        b'a'..=b'f' => b - b'a' + 10,
        _ => return None,
    };
    if d < base { Some(d) } else { None }
}
