//! Values of a finite field, and rows of them. The field is a ghost member of the trait `Value`: bits are one field, and every function here stands for any other.
#![tactic(auto)]

ghost use Rattle.std.specs.Prelude.{◌≡◌, map, length, replicate, IfOk, ◌≢◌};
ghost use Rattle.linear.specs.Field.{Field, bits};
ghost use Rattle.linear.specs.Basis.{mix, dot as dotOf};

use std::alloc::{AllocError, Global};

/// A value of a finite field.
pub trait Value: Copy {
    ghost field: { Field Self };

    /// The field's zero.
    fn zero() -> Self
        ensures { result ≡ field.zer };

    /// The field's one.
    fn one() -> Self
        ensures { result ≡ field.one };

    fn plus(self, other: Self) -> Self
        ensures { result ≡ field.add self other };

    fn times(self, other: Self) -> Self
        ensures { result ≡ field.mul self other };

    fn negated(self) -> Self
        ensures { result ≡ field.neg self };

    /// What makes one when multiplied with this value; of zero, any value.
    fn inverse(self) -> Self
        ensures { result ≡ field.inv self };

    fn is_zero(self) -> bool
        ensures { result ≡ field.is self field.zer };
}

/// The bits 0 and 1, as false and true.
impl Value for bool {
    ghost field = { bits };

    fn zero() -> bool {
        false
    }

    fn one() -> bool {
        true
    }

    fn plus(self, other: bool) -> bool {
        self ^ other
    }

    fn times(self, other: bool) -> bool {
        self & other
    }

    fn negated(self) -> bool {
        self
    }

    fn inverse(self) -> bool {
        self
    }

    fn is_zero(self) -> bool {
        !self
    }
}

/// A row of this many zeros.
pub fn zeros<T: Value>(heap: Global, len: usize) -> Result<Vec<T>, AllocError>
    ensures { IfOk result (λ v. v.items ≡ replicate len T.Value.field.zer) }
{
    let mut row = Vec::new(heap);
    // Kept: with `vec![in heap; T::zero(); len]` the goal `returns` stays open: the elements are clones, and the bound `Copy` does not say that clones are equal.
    row.resize(len, T::zero())?;
    Ok(row)
}

/// Adds `k` times `other` to `row`. Where their lengths differ, the row stays as it is.
pub fn add_times<T: Value>(row: &mut [T], k: T, other: &[T])
    ensures sum { length row.old ≡ length other.now → row.new ≡ mix T.Value.field k other.now row.old }
    ensures kept { (length row.old ≢ length other.now) → row.new ≡ row.old }
{
    if row.len() != other.len() {
        return;
    }
    // Kept: over `row.iter_mut().zip(other)` the goal `returns-clause-sum` stays open, since a proof knows nothing of what is written: `other` is read by its index.
    for (i, x) in row.iter_mut().enumerate() {
        *x = x.plus(k.times(other[i]));
    }
}

/// Takes `k` times each element.
pub fn scale<T: Value>(row: &mut [T], k: T)
    ensures { row.new ≡ map (T.Value.field.mul k) row.old }
{
    for x in row.iter_mut() {
        *x = k.times(*x);
    }
}

/// Sets each element to zero.
pub fn clear<T: Value>(row: &mut [T])
    ensures { row.new ≡ replicate (length row.old) T.Value.field.zer }
{
    let zero = T::zero();
    // Kept: with `row.fill(zero)` the goal `fill-requires` stays open: that a clone cannot fail is not said by the bound `Copy`.
    for x in row.iter_mut() {
        *x = zero;
    }
}

/// The sum of products, place by place; zero where the lengths differ.
pub fn dot<T: Value>(a: &[T], x: &[T]) -> T
    ensures sum { length a.now ≡ length x.now → result ≡ dotOf T.Value.field a.now x.now }
    ensures apart { (length a.now ≢ length x.now) → result ≡ T.Value.field.zer }
{
    if a.len() != x.len() {
        return T::zero();
    }
    a.iter()
        .zip(x)
        .fold(T::zero(), |sum, (p, q)| sum.plus(p.times(*q)))
}
