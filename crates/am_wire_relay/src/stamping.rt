//! How the items of a relay are stamped.

ghost use Rattle.std.specs.Prelude.{◌≡◌, ◌+◌, ◌≤◌, ◌++◌, ℕ, length, map, vec_len, vec_capacity};

/// How items of the type `T` bear a stamp: that of their emission, until an emission releases them. No value of it is needed.
///
/// ```
/// struct NumberStamps;
///
/// impl Stamping<Number> for NumberStamps {
///     ghost stamp_of = { stamp_of };
///     ghost restamped = { restamped };
///     fn stamp(number: &Number) -> u64 { number.stamp }
///     fn restamp(number: Number, stamp: u64) -> Number { Number { value: number.value, stamp } }
/// }
/// ```
pub trait Stamping<T> {
    /// The item's stamp.
    ghost stamp_of: { T → ℕ };

    /// The item with another stamp.
    ghost restamped: { ℕ → T → T };

    /// The item's stamp.
    fn stamp(item: &T) -> u64
        ensures { result ≡ stamp_of item.now };

    /// The item with another stamp.
    fn restamp(item: T, stamp: u64) -> T
        ensures { result ≡ restamped stamp item };
}

/// Adds items that leave the relay by an emission with this stamp. There is room for them.
pub(crate) fn release_stamped<T: Copy, S: Stamping<T>>(
    released: &mut Vec<T>,
    freed: &[T],
    stamp: u64,
)
    requires { vec_len released.old + length freed.now ≤ vec_capacity released.old }
    ensures items { released.new.items ≡ released.old.items ++ map (S.restamped stamp) freed.now }
    ensures capacity { vec_capacity released.new ≡ vec_capacity released.old }
{
    for item in freed {
        released.push_reserved(S::restamp(*item, stamp));
    }
}
