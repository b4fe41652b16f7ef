// Lists that are read and written anywhere, for engines of which nothing is claimed: past their ends nothing stands, and
// nothing is written.

/// No number.
pub const NONE: u32 = u32::MAX;

/// The number at a place.
pub fn number(numbers: &[u32], i: u32) -> u32 {
    match numbers.get(i as usize) {
        Some(number) => *number,
        None => NONE,
    }
}

/// Sets the number at a place.
pub fn put(numbers: &mut [u32], i: u32, value: u32) {
    if let Some(number) = numbers.get_mut(i as usize) {
        *number = value;
    }
}

/// Adds one to the number at a place.
pub fn count_at(numbers: &mut [u32], i: u32) {
    if let Some(number) = numbers.get_mut(i as usize) {
        *number = number.saturating_add(1);
    }
}

/// As a number of 32 bits.
pub fn small(number: usize) -> u32 {
    match u32::try_from(number) {
        Ok(small) => small,
        Err(_) => u32::MAX,
    }
}
