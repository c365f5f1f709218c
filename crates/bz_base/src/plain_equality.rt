//! Equality of plain values.
ghost use Rattle.std.specs.Prelude.{◌≡◌, ◌↔◌, IsTrue};

use crate::plain_values::{Plain, PlainPair};

impl Plain {
    /// Whether two values are the same, the order of pairs included.
    pub fn equal(&self, other: &Plain) -> bool
        ensures { IsTrue result ↔ (self.now ≡ other.now) }
    {
        plains_equal(self, other)
    }
}

#[cycle(equality)]
fn plains_equal(left: &Plain, right: &Plain) -> bool
    ensures { IsTrue result ↔ (left.now ≡ right.now) }
{
    match (left, right) {
        (Plain::None, Plain::None) => true,
        (Plain::Flag(left), Plain::Flag(right)) => *left == *right,
        (Plain::Int(left), Plain::Int(right)) => *left == *right,
        (Plain::Text(left), Plain::Text(right)) => left.same(right),
        (Plain::Label(left), Plain::Label(right)) => left.same(right),
        (Plain::Items(left), Plain::Items(right)) => items_equal(left.as_slice(), right.as_slice()),
        (Plain::Pairs(left), Plain::Pairs(right)) => pairs_equal(left.as_slice(), right.as_slice()),
        _ => false,
    }
}

#[cycle(equality)]
fn items_equal(left: &[Plain], right: &[Plain]) -> bool
    ensures { IsTrue result ↔ (left.now ≡ right.now) }
{
    let mut rest = right;
    for item in left {
        let [other, further @ ..] = rest else {
            return false;
        };
        if !plains_equal(item, other) {
            return false;
        }
        rest = further;
    }
    rest.is_empty()
}

#[cycle(equality)]
fn pairs_equal(left: &[PlainPair], right: &[PlainPair]) -> bool
    ensures { IsTrue result ↔ (left.now ≡ right.now) }
{
    let mut rest = right;
    for pair in left {
        let [other_pair, further @ ..] = rest else {
            return false;
        };
        if !plains_equal(&pair.key, &other_pair.key)
            || !plains_equal(&pair.value, &other_pair.value)
        {
            return false;
        }
        rest = further;
    }
    rest.is_empty()
}
