//! What is asked of the elements and keys that the values hold.
ghost use Rattle.std.specs.Prelude.{◌≡◌, IfOk};
ghost use Rattle.join_laws.specs.Laws.{IsExact};
ghost use Rattle.join_laws.specs.Proved.Exact.{exact_unsigned, exact_both, exact_lists};

use std::alloc::AllocError;

/// A value that can be copied, where the copy is equal to it.
pub trait Copies: Drop {
    /// A copy of the value. It fails only for want of memory.
    fn copy(&self) -> Result<Self, AllocError>
        ensures { IfOk result (λ copy. copy ≡ self.now) };
}

/// A type whose order tells all values apart: what compares equal is one value.
///
/// That the order is total is a law of `Ord` already. A struct of one's own that holds a number
/// and derives its order writes
/// `ghost exact = { λ x y equal i. record { number = exact_unsigned x.number y.number equal i } };`
/// with `exact_unsigned` of `specs/Proved/Exact.antt`, which has the parts for pairs and lists too.
pub trait Exact: Ord + Copies {
    ghost exact: { IsExact Self.cmp };
}

impl Copies for u8 {
    fn copy(&self) -> Result<u8, AllocError> {
        Ok(*self)
    }
}

impl Exact for u8 {
    ghost exact = { exact_unsigned };
}

impl Copies for u16 {
    fn copy(&self) -> Result<u16, AllocError> {
        Ok(*self)
    }
}

impl Exact for u16 {
    ghost exact = { exact_unsigned };
}

impl Copies for u32 {
    fn copy(&self) -> Result<u32, AllocError> {
        Ok(*self)
    }
}

impl Exact for u32 {
    ghost exact = { exact_unsigned };
}

impl Copies for u64 {
    fn copy(&self) -> Result<u64, AllocError> {
        Ok(*self)
    }
}

impl Exact for u64 {
    ghost exact = { exact_unsigned };
}

impl<T: Copy, const N: usize> Copies for [T; N] {
    fn copy(&self) -> Result<[T; N], AllocError> {
        Ok(*self)
    }
}

impl<T: Exact + Copy, const N: usize> Exact for [T; N] {
    ghost exact = { exact_lists T.cmp T.exact };
}

impl<A: Copies, B: Copies> Copies for (A, B) {
    fn copy(&self) -> Result<(A, B), AllocError> {
        Ok((self.0.copy()?, self.1.copy()?))
    }
}

impl<A: Exact, B: Exact> Exact for (A, B) {
    ghost exact = { exact_both A.cmp B.cmp A.exact B.exact };
}
