//! Comparisons of two lists of levels, criterion by criterion.
ghost use Rattle.std.specs.Prelude.{◌≡◌, ◌↔◌, ◌≤◌, length, IsTrue, EachIndex, slice_index};
ghost use Rattle.criteria_model.specs.Alternatives.{IsSomewhereHigher, IsUndominated, degree as degree_between};
ghost use Rattle.criteria_model.specs.Pairs.{FitsAt, IsCancelled, IsLeftFirst};

/// Whether both levels are 0, or both are levels of a criterion of `count` levels.
fn fits_at(count: u8, left: u8, right: u8) -> bool
    ensures { IsTrue result ↔ FitsAt count left right }
{
    (left == 0 && right == 0) || (left >= 1 && left <= count && right >= 1 && right <= count)
}

/// Whether the levels fit the criteria at each place.
pub(crate) fn all_fit(counts: &[u8], left: &[u8], right: &[u8]) -> bool
    requires left_len { length left.now ≡ length counts.now }
    requires right_len { length right.now ≡ length counts.now }
    ensures { IsTrue result
        ↔ EachIndex counts.now (λ k. FitsAt (slice_index counts.now k) (slice_index left.now k) (slice_index right.now k)) }
{
    for place in 0..counts.len() {
        if !fits_at(counts[place], left[place], right[place]) {
            return false;
        }
    }
    true
}

/// Whether the first is higher on some criterion.
pub(crate) fn is_somewhere_higher(a: &[u8], b: &[u8]) -> bool
    requires { length a.now ≡ length b.now }
    ensures { IsTrue result ↔ IsSomewhereHigher a.now b.now }
{
    for place in 0..a.len() {
        if a[place] > b[place] {
            return true;
        }
    }
    false
}

/// Whether each is higher than the other on some criterion.
pub(crate) fn is_undominated(a: &[u8], b: &[u8]) -> bool
    requires { length a.now ≡ length b.now }
    ensures { IsTrue result ↔ IsUndominated a.now b.now }
{
    is_somewhere_higher(a, b) && is_somewhere_higher(b, a)
}

/// On how many criteria the two differ.
pub(crate) fn degree(a: &[u8], b: &[u8]) -> usize
    requires { length a.now ≡ length b.now }
    ensures value { result ≡ degree_between a.now b.now }
    ensures range { result ≤ length a.now }
{
    a.iter().zip(b).filter(|(x, y)| x != y).count()
}

/// Whether each place on which the two agree is 0.
pub(crate) fn is_cancelled(a: &[u8], b: &[u8]) -> bool
    requires { length a.now ≡ length b.now }
    ensures { IsTrue result ↔ IsCancelled a.now b.now }
{
    for place in 0..a.len() {
        if a[place] == b[place] && a[place] != 0 {
            return false;
        }
    }
    true
}

/// Whether the first is higher on the first criterion on which they differ.
pub(crate) fn is_left_first(a: &[u8], b: &[u8]) -> bool
    requires { length a.now ≡ length b.now }
    ensures { IsTrue result ↔ IsLeftFirst a.now b.now }
{
    for place in 0..a.len() {
        if a[place] != b[place] {
            return a[place] > b[place];
        }
    }
    false
}
