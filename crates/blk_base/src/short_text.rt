// Texts of few bytes.
ghost use Rattle.std.specs.Prelude.{◌≡◌, ◌≤◌, [], length, Some, refl, nat_eq};
ghost use Rattle.std.specs.Ordering.{nat_cmp};
ghost use Rattle.std.specs.Cmp.{partial_equiv_from_equiv};
ghost use Rattle.std.specs.Cmp.Lexicographic.{pointwise, slice_cmp, nat_list_eq_equiv, nat_list_cmp_total, texts_po, texts_ties};

use std::cmp::Ordering;
use std::marker::Model;
use std::{fmt, str};

/// A text of at most `N` bytes, which lie in the value itself. To contracts it is its bytes.
#[derive(Clone, Copy)]
pub struct ShortText<const N: usize> {
    bytes: [u8; N],
    len: usize,
}

impl<const N: usize> Model for ShortText<N> {
    ghost use Rattle.std.specs.Prelude.{◌≡◌, ℕ, ◌≤◌, ◌-◌, ◌++◌, List, length, take, drop, replicate, IsUtf8};
    ghost use Rattle.std.proofs.Common.{sym, ap, ◌∙◌, arith, take-append-drop, length-take-le};

    ghost Value = { List ℕ };

    ghost view = { λ t. take t.len t.bytes };

    ghost invariant = { λ t. (t.len ≤ N) × (length t.bytes ≡ N) × ∥ IsUtf8 (take t.len t.bytes) ∥₁ × (drop t.len t.bytes ≡ replicate (N - t.len) 0) };

    ghost inverse = { λ t. record { bytes = t ++ replicate (N - length t) 0; len = length t } };

    ghost inverse_ok = { λ t h i. record {
      bytes = (ap (λ n. take t.len t.bytes ++ replicate (N - n) 0) (length-take-le t.len t.bytes (omega (arith, h.0, h.1)))
          ∙ (ap (λ rest. take t.len t.bytes ++ rest) (sym h.3) ∙ take-append-drop t.len t.bytes)) i;
      len = length-take-le t.len t.bytes (omega (arith, h.0, h.1)) i;
    } };
}

impl<const N: usize> ShortText<N> {
    /// No bytes.
    pub fn new() -> ShortText<N>
        ensures { result ≡ [] }
    {
        ShortText {
            bytes: [0; N],
            len: 0,
        }
    }

    /// These bytes, which are at most `N`.
    pub fn of(text: &str) -> ShortText<N>
        requires { length text.now ≤ N }
        ensures { result ≡ text.now }
    {
        let len = text.len();
        let mut bytes = [0; N];
        bytes[..len].copy_from_slice(text.as_bytes());
        ShortText { bytes, len }
    }

    /// The text.
    pub fn as_str(&self) -> &str
        ensures value { result.now ≡ self.now }
        ensures fits { length result.now ≤ N }
    {
        unsafe { str::from_utf8_unchecked(&self.bytes[..self.len]) }
    }
}

impl<const N: usize> PartialEq for ShortText<N> {
    ghost eq = { λ s t. pointwise nat_eq s t };

    ghost laws = { partial_equiv_from_equiv nat_list_eq_equiv };

    fn eq(&self, other: &Self) -> bool {
        self.as_str() == other.as_str()
    }
}

impl<const N: usize> Eq for ShortText<N> {
    ghost laws = { nat_list_eq_equiv };
}

impl<const N: usize> PartialOrd for ShortText<N> {
    ghost partial_cmp = { λ s t. Some (slice_cmp nat_cmp s t) };

    ghost laws = { texts_po };

    fn partial_cmp(&self, other: &Self) -> Option<Ordering> {
        Some(self.cmp(other))
    }
}

impl<const N: usize> Ord for ShortText<N> {
    ghost cmp = { λ s t. slice_cmp nat_cmp s t };

    ghost total = { nat_list_cmp_total };

    ghost matches_partial_cmp = { λ s t. refl };

    ghost matches_eq = { λ s t. texts_ties s t };

    fn cmp(&self, other: &Self) -> Ordering {
        self.as_str().cmp(other.as_str())
    }
}

impl<const N: usize> fmt::Display for ShortText<N> {
    ghost output = { λ s. Some s };

    fn fmt<W: fmt::Write>(&self, f: &mut fmt::Formatter<W>) -> fmt::Result {
        f.pad(self.as_str())
    }
}
