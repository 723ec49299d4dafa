// Lower-case hexadecimal digits: read from a line, and written.
ghost use Rattle.std.specs.Prelude.{◌≡◌, ◌≤◌, ◌<◌, ◌+◌, length};
ghost use Rattle.frames.specs.Hex.{is_hex, hex_of, hex_at, all_hex, digit_of, digit_at};

#[tactic(auto, unfolding(crate::specs::Hex::is_hex))]
fn is_digit(b: u8) -> bool
    ensures { result ≡ is_hex b }
{
    matches!(b, b'0'..=b'9' | b'a'..=b'f')
}

// Whether all bytes of a line are digits.
pub fn all_digits(line: &[u8]) -> bool
    ensures { result ≡ all_hex line.now }
{
    line.iter().all(|&b| is_digit(b))
}

// The value of a digit; 0 for what is none.
#[tactic(auto, unfolding(crate::specs::Hex::hex_of))]
fn digit(b: u8) -> u64
    ensures value { result ≡ hex_of b }
    ensures bound { result < 16 }
{
    match b {
        b'0'..=b'9' => (b - b'0') as u64,
        b'a'..=b'f' => (b - b'a') as u64 + 10,
        _ => 0,
    }
}

// The number of n digits from an index on.
pub fn number(line: &[u8], at: usize, n: usize) -> u64
    requires { (at + n ≤ length line.now) × (n ≤ 16) }
    ensures { result ≡ hex_at line.now at n }
{
    let mut v: u64 = 0;
    for &b in &line[at..at + n] {
        v = 16 * v + digit(b);
    }
    v
}

// The digit of a value below 16.
#[tactic(auto, unfolding(crate::specs::Hex::digit_of))]
fn written(v: u64) -> u8
    requires { v < 16 }
    ensures { result ≡ digit_of v }
{
    if v < 10 {
        b'0' + v as u8
    } else {
        b'a' + (v - 10) as u8
    }
}

// Digit k of a number, 0 the lowest.
pub fn digit_at(v: u64, k: u64) -> u8
    requires { k < 16 }
    ensures { result ≡ digit_at v k }
{
    written((v >> (4 * k)) % 16)
}
