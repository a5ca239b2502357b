//! The least-index rule for pivots ends. No function pivots: each states laws, which hold by its
//! contract for dictionaries of any size.
#![tactic(auto)]

ghost use Rattle.least_index.specs.Laws.{PivotsFall, RuleEnds};

/// The rule makes fewer pivots than there are sets of variables, and a pivot that follows it leaves
/// fewer to make.
pub fn rule_ends()
    ensures ends { RuleEnds }
    ensures fall { PivotsFall }
{}
