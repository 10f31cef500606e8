// Parts of files and of rows.
ghost use Rattle.std.specs.Prelude.{◌≤◌, length};

// The bytes between two places, as far as there are any; `get(from..to)` has none where the bytes end before `to`.
pub fn between(bytes: &[u8], from: usize, to: usize) -> &[u8] {
    let end = to.min(bytes.len());
    bytes.get(from..end).unwrap_or_default()
}

// So many bytes from a place on, as far as there are any.
pub fn part(bytes: &[u8], at: usize, n: usize) -> &[u8] {
    between(bytes, at, at.saturating_add(n))
}

// The numbers of so many rows, as far as there are any, and those behind them; `split_at_checked` has neither where there are fewer.
pub fn split_rows(numbers: &[u64], rows: usize) -> (&[u64], &[u64]) {
    let most = numbers.len() / 6;
    numbers.split_at(6 * rows.min(most))
}

// Puts bytes at `at`, and answers the place behind them; where there is no room, it puts none and answers `at`.
pub fn append(out: &mut [u8], at: usize, bytes: &[u8]) -> usize
    requires { at ≤ length out.old }
    ensures { result ≤ length out.old }
{
    match out[at..].get_mut(..bytes.len()) {
        Some(place) => {
            place.copy_from_slice(bytes);
            at + bytes.len()
        }
        None => at,
    }
}
