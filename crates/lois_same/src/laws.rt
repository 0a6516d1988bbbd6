//! Each function does nothing, and its contract states laws that are proved.

ghost use Rattle.lois_same.specs.Laws.{ContrastsAreDifferences};

/// Of partitions: where two results differ, they aren't the same.
pub fn contrasts_are_differences()
    ensures differ { ContrastsAreDifferences }
{}
