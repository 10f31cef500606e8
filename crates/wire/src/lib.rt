// Numbers out of bytes: unsigned ones of 1, 2, 4 and 8 bytes, the least byte first, and a reading of 4, raised.
#![tactic(auto)]

ghost use Rattle.std.specs.Prelude.{◌≡◌, ◌+◌, ◌*◌, ◌≤◌, ◌==◌, length, take, drop};
ghost use Rattle.wire.specs.Numbers.{little, number_at};
ghost use Rattle.wire.specs.ReadingsInner.{RaisedIf};

// The N bytes from `at` on.
fn bytes_at<const N: usize>(s: &[u8], at: usize) -> [u8; N]
    requires { at + N ≤ length s.now }
    ensures { result ≡ take N (drop at s.now) }
{
    s[at..at + N].try_into().unwrap()
}

// The number in the bytes from `at` on, one, two, four or eight of them. One function of each width, since the answer has its type: a trait would want an impl
// of each, as long as these.
pub fn u8_at(s: &[u8], at: usize) -> u8
    requires { at + 1 ≤ length s.now }
    ensures { result ≡ number_at s.now at 1 }
{
    s[at]
}

pub fn u16_at(s: &[u8], at: usize) -> u16
    requires { at + 2 ≤ length s.now }
    ensures { result ≡ number_at s.now at 2 }
{
    u16::from_le_bytes(bytes_at(s, at))
}

pub fn u32_at(s: &[u8], at: usize) -> u32
    requires { at + 4 ≤ length s.now }
    ensures { result ≡ number_at s.now at 4 }
{
    u32::from_le_bytes(bytes_at(s, at))
}

pub fn u64_at(s: &[u8], at: usize) -> u64
    requires { at + 8 ≤ length s.now }
    ensures { result ≡ number_at s.now at 8 }
{
    u64::from_le_bytes(bytes_at(s, at))
}

// Whether all bytes are zero. The contract says that their number is 0, which is the same.
pub fn are_zero(bytes: &[u8]) -> bool
    ensures { result ≡ (little bytes.now == 0) }
{
    bytes.iter().all(|byte| *byte == 0)
}

// What a raised reading has more than the reading, in watts.
pub const RAISE: u32 = 2147483648;

// Reading `i` of the readings that `s` holds, without a sign: its watts and the raise; none where it is missing.
#[tactic(auto, using(crate::proofs::RaisedLaws::raised_bytes))]
pub fn raised_at(s: &[u8], i: usize) -> Option<u32>
    requires { 4 * i + 4 ≤ length s.now }
    ensures { RaisedIf s.now i result }
{
    match u32_at(s, 4 * i).wrapping_add(RAISE) {
        0 => None,
        raised => Some(raised),
    }
}
