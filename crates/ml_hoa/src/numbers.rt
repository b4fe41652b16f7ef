// The numbers that digits are, up to a bound.
ghost use Rattle.std.specs.Prelude.{◌≡◌, min};
ghost use Rattle.ml_lines.specs.Reading.{value};

// the number that these digits are, or the bound where it is greater
pub(crate) fn number_up_to(digits: &[u8], bound: u32) -> u32
    ensures { result ≡ min (value digits.now) bound }
{
    let mut number = 0;
    for digit in digits {
        number = (10 * number + u64::from(digit.saturating_sub(b'0'))).min(u64::from(bound));
    }
    number as u32
}
