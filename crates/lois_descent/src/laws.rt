//! Laws of the grammar and of the descent: each function does nothing, and its contract states a law that is proved.

ghost use Rattle.lois_descent.specs.Laws.{OneScript, OneScriptOfText, OneRefusal, NeverBoth, DescentIsCorrect};

/// Tokens, and a text, spell at most one script.
pub fn one_script()
    ensures tokens { OneScript }
    ensures text { OneScriptOfText }
{}

/// Tokens are refused in one way at most, and the tokens of a text that spells a script within the limits in none.
pub fn one_refusal()
    ensures refusal { OneRefusal }
    ensures never_both { NeverBoth }
{}

/// The descent over all tokens gives a script that they spell, within the limits, or how they are refused.
pub fn descent_is_correct()
    ensures judged { DescentIsCorrect }
{}
