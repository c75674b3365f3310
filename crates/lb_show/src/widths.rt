//! The width of a number.

/// The number of decimal digits of a number.
pub(crate) fn digits(n: u64) -> usize {
    let mut count = 1;
    let mut rest = n / 10;
    'digits: while rest > 0 {
        count = usize::saturating_add(count, 1);
        rest /= 10;
    }
    count
}
