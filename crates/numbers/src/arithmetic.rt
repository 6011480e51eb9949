//! Arithmetic on whole numbers.
ghost use Rattle.std.specs.Prelude.{◌≡◌, ◌<◌, ◌^◌, pos, negsuc};
ghost use Rattle.numbers.specs.Arithmetic.{sum_of, difference_of, product_of, opposite_of};
ghost use Rattle.numbers.specs.Arithmetic.{quotient_of, remainder_of, bounded};

/// Why there is no number.
#[derive(Clone, Copy, PartialEq, Eq, Debug)]
pub enum NumberError {
    /// The result is outside 64 bits.
    Overflow,
    /// The divisor is 0.
    Zero,
}

/// `a + b`.
///
/// # Errors
///
/// `Overflow`.
pub fn sum(a: i64, b: i64) -> Result<i64, NumberError>
    ensures { result ≡ sum_of a b }
{
    match a.checked_add(b) {
        Some(sum) => Ok(sum),
        None => Err(NumberError::Overflow),
    }
}

/// `a - b`.
///
/// # Errors
///
/// `Overflow`.
pub fn difference(a: i64, b: i64) -> Result<i64, NumberError>
    ensures { result ≡ difference_of a b }
{
    match a.checked_sub(b) {
        Some(difference) => Ok(difference),
        None => Err(NumberError::Overflow),
    }
}

/// `a * b`.
///
/// # Errors
///
/// `Overflow`.
pub fn product(a: i64, b: i64) -> Result<i64, NumberError>
    ensures { result ≡ product_of a b }
{
    match a.checked_mul(b) {
        Some(product) => Ok(product),
        None => Err(NumberError::Overflow),
    }
}

/// `-a`.
///
/// # Errors
///
/// `Overflow` at the least number alone.
pub fn opposite(a: i64) -> Result<i64, NumberError>
    ensures { result ≡ opposite_of a }
{
    match a.checked_neg() {
        Some(opposite) => Ok(opposite),
        None => Err(NumberError::Overflow),
    }
}

/// `a // b`, rounded down.
///
/// # Errors
///
/// `Zero` where the divisor is 0; `Overflow` where the least number is divided by -1.
pub fn quotient(a: i64, b: i64) -> Result<i64, NumberError>
    ensures { result ≡ quotient_of a b }
{
    if b == 0 {
        return Err(NumberError::Zero);
    }
    if (a < 0) == (b < 0) {
        return not_negative(a.unsigned_abs() / b.unsigned_abs());
    }
    if a == 0 {
        return Ok(0);
    }
    Ok(below_zero((a.unsigned_abs() - 1) / b.unsigned_abs()))
}

/// A number that isn't negative.
fn not_negative(size: u64) -> Result<i64, NumberError>
    ensures { result ≡ bounded (pos size) }
{
    if size > i64::MAX as u64 {
        return Err(NumberError::Overflow);
    }
    Ok(size as i64)
}

/// The number that is one less than the opposite of a size.
fn below_zero(size: u64) -> i64
    requires { size < 2 ^ 63 }
    ensures { result ≡ negsuc size }
{
    -1 - size as i64
}

/// `a % b`, which has the sign of the divisor.
///
/// # Errors
///
/// `Zero` where the divisor is 0.
pub fn remainder(a: i64, b: i64) -> Result<i64, NumberError>
    ensures { result ≡ remainder_of a b }
{
    if b == 0 {
        return Err(NumberError::Zero);
    }
    if a == 0 {
        return Ok(0);
    }
    let divisor = b.unsigned_abs();
    let left = if (a < 0) == (b < 0) {
        a.unsigned_abs() % divisor
    } else {
        divisor - 1 - (a.unsigned_abs() - 1) % divisor
    };
    let left = left as i64;
    Ok(if b < 0 { -left } else { left })
}
