//! Laws of the top call: the function does nothing, and its contract states laws that are proved.

ghost use Rattle.lois_run.specs.Laws.{RefusalsAreSure, RefusedSpellNone};

/// A text that a command refuses for a cause comes to that refusal alone, whatever else has a cause; and a text that is refused
/// as a script spells no well-scoped script.
pub fn refusals_are_sure()
    ensures sure { RefusalsAreSure }
    ensures no_script { RefusedSpellNone }
{}
