// Bytes become numbers (document 01, "The job file"): four bytes, lowest first, are an unsigned
// 32-bit number, and with two's complement a signed value. Where bytes run past the end, the number is 0,
// and nothing is written there, so that no caller has to check first; `number_there` alone asks for bytes
// that are there, and saves a search the test for each row.
#![tactic(auto)]

ghost use Rattle.std.specs.Prelude.{◌≡◌, ◌+◌, ◌≤◌, ◌<◌, length, get_or, set};
ghost use Rattle.numbers.specs.Numbers.{number_at, signed, value_at};

// The byte at a place: 0 past the end.
pub fn byte_at(s: &[u8], at: usize) -> u8
    ensures { result ≡ get_or s.now at 0 }
{
    s.get(at).copied().unwrap_or(0)
}

// A byte is written at a place: nothing past the end.
pub fn put_byte(s: &mut [u8], at: usize, b: u8)
    ensures { s.new ≡ set s.old at b }
{
    if at < s.len() {
        s[at] = b;
    }
}

// The number at a place whose four bytes are there.
#[tactic(auto, unfolding(crate::specs::Numbers::number_at))]
pub fn number_there(s: &[u8], at: usize) -> u32
    requires { at + 4 ≤ length s.now }
    ensures { result ≡ number_at s.now at }
{
    u32::from_le_bytes([s[at], s[at + 1], s[at + 2], s[at + 3]])
}

// The number at a place: 0 where its four bytes run past the end.
#[tactic(auto, unfolding(crate::specs::Numbers::number_at))]
pub fn number_at(s: &[u8], at: usize) -> u32
    ensures { result ≡ number_at s.now at }
{
    if s.len() >= 4 && at <= s.len() - 4 {
        number_there(s, at)
    } else {
        0
    }
}

// Two's complement: from 2,147,483,648 on, a number less 4,294,967,296.
#[tactic(auto, unfolding(crate::specs::Numbers::signed))]
pub fn as_signed(n: u32) -> i32
    ensures { result ≡ signed n }
{
    n.cast_signed()
}

// The value at a place: 0 where its four bytes run past the end.
#[tactic(auto, unfolding(crate::specs::Numbers::value_at))]
pub fn value_at(s: &[u8], at: usize) -> i32
    ensures { result ≡ value_at s.now at }
{
    as_signed(number_at(s, at))
}
