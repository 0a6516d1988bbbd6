//! The law of the texts: the function does nothing, and its contract states a law that is proved.

ghost use Rattle.lois_reader.specs.Laws.{ResultsAreTold, AnswersAreTold};

/// Different results have different texts, and so have different answers; no text is both of results and of a trace.
pub fn texts_tell_values_apart()
    ensures results { ResultsAreTold }
    ensures answers { AnswersAreTold }
{}
