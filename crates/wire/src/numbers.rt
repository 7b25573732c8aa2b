ghost use Rattle.std.specs.Prelude.{◌≡◌, ◌≢◌, ◌∷◌, ℕ, ℤ, slice_index, unsigned_abs, MatchOption, ◌^◌, ◌<◌, ◌≤◌, ◌+◌, ◌*◌, ◌↔◌, IsTrue, decimal, FitsSigned};
ghost use Rattle.std.specs.Int.{w64};
ghost use Rattle.std.specs.Fmt.{signed_decimal};
ghost use Rattle.std.proofs.Common.{refl};
ghost use Rattle.wire.specs.Fields.{ReadsAs, IsBigFee};
ghost use Rattle.wire.specs.Digits.{IsPlain, GivesBelow, ReadsDigits};
ghost use Rattle.wire.specs.Magnitudes.{wide_is_small, big_is_small, signed_magnitude, big_fee_magnitude};

/// A number without a sign, as texts have it: below a limit.
pub(crate) trait Magnitude: Copy {
    /// A number of such a magnitude with a sign.
    type Signed;

    ghost value: { Self → ℕ };

    ghost limit: { ℕ };

    ghost signed_value: { Self.Signed → ℤ };

    /// The numbers with a sign that texts have.
    ghost fits: { Self.Signed → Type 0 };

    fn zero() -> Self
        ensures value { value result ≡ 0 }
        ensures below { 0 < limit };

    /// The number with another digit at its end, where it is below the limit.
    fn pushed(self, digit: u8) -> Option<Self>
        requires { value self < limit }
        ensures { GivesBelow value limit (10 * value self + digit) result };

    /// The number without a sign, where texts have it.
    fn positive(self) -> Option<Self::Signed>
        requires { value self < limit }
        ensures { ReadsAs (λ number. signed_decimal (signed_value number)) fits (decimal (value self)) result };

    /// The number with a minus sign, where it isn't 0 and texts have it.
    fn negative(self) -> Option<Self::Signed>
        requires { value self < limit }
        ensures { ReadsAs (λ number. signed_decimal (signed_value number)) fits (45 ∷ decimal (value self)) result };

    /// There is one of each value below the limit.
    ghost reached: { (n : ℕ) → n < limit → (number : Self) × (value number ≡ n) };

    ghost small: { limit ≤ 10 ^ 64 };

    ghost within: { (number : Self.Signed) → fits number → unsigned_abs (signed_value number) < limit };
}

/// Numbers of 64 bits.
impl Magnitude for u64 {
    type Signed = i64;

    ghost value = { λ number. number };

    ghost limit = { 2 ^ 64 };

    ghost signed_value = { λ number. number };

    ghost fits = { FitsSigned w64 };

    fn zero() -> u64 {
        0
    }

    fn pushed(self, digit: u8) -> Option<u64> {
        self.checked_mul(10)?.checked_add(u64::from(digit))
    }

    fn positive(self) -> Option<i64> {
        if self < 1 << 63 {
            Some(self as i64)
        } else {
            None
        }
    }

    fn negative(self) -> Option<i64> {
        if self == 0 {
            None
        } else {
            0i64.checked_sub_unsigned(self)
        }
    }

    ghost reached = { λ n below. (n, refl) };

    ghost small = { wide_is_small };

    ghost within = { signed_magnitude };
}

/// The greatest number of a certificate text, but for its names and sizes.
const BIGGEST: u128 = 1_000_000_000_000_000_000_000_000_000_000;

/// Numbers of at most 10^30.
impl Magnitude for u128 {
    type Signed = i128;

    ghost value = { λ number. number };

    ghost limit = { 10 ^ 30 + 1 };

    ghost signed_value = { λ number. number };

    ghost fits = { IsBigFee };

    fn zero() -> u128 {
        0
    }

    fn pushed(self, digit: u8) -> Option<u128> {
        let pushed = 10 * self + u128::from(digit);
        if pushed <= BIGGEST {
            Some(pushed)
        } else {
            None
        }
    }

    fn positive(self) -> Option<i128> {
        Some(self as i128)
    }

    fn negative(self) -> Option<i128> {
        if self == 0 {
            None
        } else {
            Some(-(self as i128))
        }
    }

    ghost reached = { λ n below. (n, refl) };

    ghost small = { big_is_small };

    ghost within = { big_fee_magnitude };
}

/// A number in its one spelling: digits without a leading zero, or `0`.
pub(crate) fn number<N: Magnitude>(bytes: &[u8]) -> Option<N>
    ensures { ReadsAs (λ number. decimal (N.value number)) (λ number. N.value number < N.limit) bytes.now result }
{
    if is_plain(bytes) { digits(bytes) } else { None }
}

/// Whether a text has a byte, and no leading zero.
fn is_plain(bytes: &[u8]) -> bool
    ensures { IsTrue result ↔ IsPlain bytes.now }
{
    match bytes {
        [] => false,
        [b'0', rest @ ..] => rest.is_empty(),
        _ => true,
    }
}

/// The value of a text of digits, where it is below the limit.
fn digits<N: Magnitude>(bytes: &[u8]) -> Option<N>
    ensures { ReadsDigits N.value N.limit bytes.now result }
{
    let mut value = N::zero();
    for byte in bytes {
        if !byte.is_ascii_digit() {
            return None;
        }
        match value.pushed(*byte - b'0') {
            Some(next) => value = next,
            None => return None,
        }
    }
    Some(value)
}

/// A number with a sign, in its one spelling: as `number`, or `-` and one that isn't 0.
pub(crate) fn signed_number<N: Magnitude>(bytes: &[u8]) -> Option<N::Signed>
    ensures { ReadsAs (λ number. signed_decimal (N.signed_value number)) N.fits bytes.now result }
{
    match after_minus(bytes) {
        Some(rest) => number::<N>(rest)?.negative(),
        None => number::<N>(bytes)?.positive(),
    }
}

/// What follows a minus sign at the front.
fn after_minus(bytes: &[u8]) -> Option<&[u8]>
    ensures { MatchOption result (slice_index bytes.now 0 ≢ 45) (λ rest. bytes.now ≡ 45 ∷ rest.now) }
{
    match bytes {
        [b'-', rest @ ..] => Some(rest),
        _ => None,
    }
}
