//! Laws of minors, the determinants of squares of whole numbers given as lists of rows, and of rows
//! that are combinations of a square's rows. No function computes a minor: each states laws, which
//! hold by its contract for squares of any order.
#![tactic(auto)]

ghost use Rattle.minors.specs.Laws.{LinearInEachRow, ZeroAtEqualRows, OneAtIdentity, ScaleOfIdentity, ReplacedRow, FactorIsMinor, ScaleAfterPivot, PivotDivides, PivotKeepsCombination, LeavingRowIsCombination, SquareRowIsCombination, SumOfCombinations, CombinationAtPoint, NegatedCombination, NegatedScale, MinorIsBounded, FactorIsBounded, ScaleIsBounded, BoundIsSmall};

/// A minor is the determinant: linear in each row, 0 where two rows are equal, and 1 at the
/// identity.
pub fn minor_is_determinant()
    ensures linear { LinearInEachRow }
    ensures alternating { ZeroAtEqualRows }
    ensures identity { OneAtIdentity }
{}

/// Cramer's rule: the factors by which a row is a combination of a square's rows are minors, up to
/// one common scale.
pub fn factors_are_minors()
    ensures replaced { ReplacedRow }
    ensures factor { FactorIsMinor }
{}

/// A square's own rows are combinations of its rows, and so are sums and multiples of combinations.
/// A combination holds of the rows' values at each point, and all its signs may be turned.
pub fn combinations_are_closed()
    ensures own { SquareRowIsCombination }
    ensures sums { SumOfCombinations }
    ensures at_point { CombinationAtPoint }
    ensures negated { NegatedCombination }
{}

/// A pivot, which exchanges a row of the square, divides exactly by the old scale, and its
/// quotients are the factors over the new square.
pub fn pivot_divides_exactly()
    ensures start { ScaleOfIdentity }
    ensures scale { ScaleAfterPivot }
    ensures divides { PivotDivides }
    ensures kept { PivotKeepsCombination }
    ensures leaving { LeavingRowIsCombination }
    ensures negated { NegatedScale }
{}

/// Where only the last column has numbers above 1 in size, a minor of order n is at most n! times
/// the largest of these, and so are factors and scale.
pub fn minor_is_bounded()
    ensures minor { MinorIsBounded }
    ensures factor { FactorIsBounded }
    ensures scale { ScaleIsBounded }
    ensures small { BoundIsSmall }
{}
