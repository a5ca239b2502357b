//! Laws of the definitions.
ghost use Rattle.part_worths.specs.Laws.{SharesAddUp, BestValuesAddUp};

/// Shares add up to the whole.
pub fn shares_add_up()
    ensures { SharesAddUp }
{}

/// The best levels of all criteria are together worth what all increments are worth.
pub fn best_values_add_up()
    ensures { BestValuesAddUp }
{}
