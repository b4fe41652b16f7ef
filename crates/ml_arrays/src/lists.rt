// Lists that are read and written anywhere: past their ends nothing stands, and nothing is written.
use ml_base::NoMemory;
use std::alloc::Global;

/// No number.
pub const NONE: u32 = u32::MAX;

/// The flag at a place; false past the end.
pub fn flag(flags: &[bool], i: u32) -> bool {
    match flags.get(i as usize) {
        Some(flag) => *flag,
        None => false,
    }
}

/// Sets the flag at a place.
pub fn set_flag(flags: &mut [bool], i: u32, value: bool) {
    if let Some(flag) = flags.get_mut(i as usize) {
        *flag = value;
    }
}

/// The number at a place; `NONE` past the end.
pub fn number(numbers: &[u32], i: u32) -> u32 {
    match numbers.get(i as usize) {
        Some(number) => *number,
        None => NONE,
    }
}

/// Sets the number at a place.
pub fn put(numbers: &mut [u32], i: u32, value: u32) {
    if let Some(number) = numbers.get_mut(i as usize) {
        *number = value;
    }
}

/// The row at a place; the empty one past the end.
pub fn row(rows: &[Vec<u32>], i: u32) -> &[u32] {
    match rows.get(i as usize) {
        Some(row) => row.as_slice(),
        None => &[],
    }
}

/// Adds a number to the row at a place.
///
/// # Errors
/// `NoMemory` alone.
pub fn push_at(rows: &mut [Vec<u32>], i: u32, value: u32) -> Result<(), NoMemory> {
    if let Some(row) = rows.get_mut(i as usize) {
        row.push(value)?;
    }
    Ok(())
}

/// Lengthens rows to so many, by empty ones.
///
/// # Errors
/// `NoMemory` alone.
///
/// Cost: linear in the rows that are added.
pub fn more_rows<T: Drop>(
    alloc: Global,
    rows: &mut Vec<Vec<T>>,
    count: usize,
) -> Result<(), NoMemory> {
    for _ in rows.len()..count {
        rows.push(Vec::new(alloc))?;
    }
    Ok(())
}

/// So many empty rows.
///
/// # Errors
/// `NoMemory` alone.
///
/// Cost: linear in the rows.
pub fn empty_rows<T: Drop>(alloc: Global, count: usize) -> Result<Vec<Vec<T>>, NoMemory> {
    let mut rows = Vec::with_capacity(alloc, count)?;
    more_rows(alloc, &mut rows, count)?;
    Ok(rows)
}

/// Lengthens numbers to so many, by copies of a value.
///
/// # Errors
/// `NoMemory` alone.
///
/// Cost: linear in the numbers that are added.
pub fn more_numbers(numbers: &mut Vec<u32>, count: usize, value: u32) -> Result<(), NoMemory> {
    for _ in numbers.len()..count {
        numbers.push(value)?;
    }
    Ok(())
}

/// Lengthens flags to so many, not set.
///
/// # Errors
/// `NoMemory` alone.
///
/// Cost: linear in the flags that are added.
pub fn more_flags(flags: &mut Vec<bool>, count: usize) -> Result<(), NoMemory> {
    for _ in flags.len()..count {
        flags.push(false)?;
    }
    Ok(())
}

/// As a number of 32 bits; the greatest one where it doesn't fit.
pub fn small(number: usize) -> u32 {
    match u32::try_from(number) {
        Ok(small) => small,
        Err(_) => u32::MAX,
    }
}
