// A lent buffer of numbers or bytes, before a call and after it. The programs keep it whole, beside how much of it is lent and how much is
// the answer, since what stands behind the answer is looked at too.
use std::io;

// What stands at each place before a call.
const CANARY: u8 = 77;

pub fn prepare<T: Copy + From<u8>>(buffer: &mut [T]) {
    buffer.fill_with(|| T::from(CANARY));
}

// Says so if one of these places changed.
pub fn kept<T: Copy + PartialEq + From<u8>>(rt: &impl Print, places: &[T]) -> io::Result<()> {
    if places.iter().any(|place| *place != T::from(CANARY)) {
        println!(rt; "changed")?;
    }
    Ok(())
}
