ghost use Rattle.chunking.specs.Laws.{PartsAreUnique};

/// A law: at most one list of parts is a chunking of an order.
pub fn parts_are_unique()
    ensures { PartsAreUnique }
{}
