//! Numbers that a relay carries.

ghost use Rattle.am_example_sums.specs.Numbers.{restamped, stamp_of};

use am_wire_relay::Stamping;

/// A number, and its stamp: the place of the emission that released it, from 1.
#[derive(Clone, Copy)]
pub struct Number {
    pub value: u32,
    pub stamp: u64,
}

impl Stamping<Number> for Number {
    ghost stamp_of = { stamp_of };

    ghost restamped = { restamped };

    fn stamp(number: &Number) -> u64 {
        number.stamp
    }

    fn restamp(number: Number, stamp: u64) -> Number {
        let value = number.value;
        Number { value, stamp }
    }
}
