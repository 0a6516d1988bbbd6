//! Laws of the top call: the function does nothing, and its contract states a law that is proved.

ghost use Rattle.lois_questions.specs.Laws.{RefusalsAreSure};

/// What is refused for its cause comes to that refusal alone, whatever else has a cause.
pub fn refusals_are_sure()
    ensures sure { RefusalsAreSure }
{}
