//! Laws of eliminators. Each function does nothing; its contract is the law.
ghost use Rattle.eliminators.specs.Laws.{WorkEliminates};

/// All that work appends are eliminations with the worker's number.
pub fn work_eliminates()
    ensures { WorkEliminates }
{}
