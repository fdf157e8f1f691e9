//! Laws of the texts of values and of calls: proved, and empty at run time.

ghost use Rattle.witx_invoke.specs.Laws.{ACallComesToOneThing, AtMostOneLine, AtMostOneValue};

/// The text of a value tells it: two values of one type that fits its tags, with one text, are one
/// value.
pub fn texts_tell_values()
    ensures { AtMostOneValue }
{}

/// A text begins with the line of at most one value of a type that fits its tags: so it gives one
/// list of values at most, and at most one line is the first at fault.
pub fn lines_tell_values()
    ensures { AtMostOneLine }
{}

/// What a call comes to is one thing: its words, values, ranges and bytes. So the answer of `invoke` is
/// the one that the definitions tell.
pub fn a_call_comes_to_one_thing()
    ensures { ACallComesToOneThing }
{}
