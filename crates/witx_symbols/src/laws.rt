//! What the verdict tells, as functions without work.

ghost use Rattle.witx_symbols.specs.Verdicts.{RunsNamePlaces};
ghost use Rattle.witx_symbols.specs.{Adapted.{AdaptedGetYes, OwnGetYes, YesIsFaithful}, Meaning.{TestsTell}};

/// Traces that get a yes are faithful to the function.
pub fn a_yes_is_faithful()
    ensures { YesIsFaithful }
{}

/// The two traces that are defined for a function get a yes, where it can be lowered and its types fit their tags.
pub fn own_traces_get_a_yes()
    ensures { OwnGetYes }
{}

/// The two traces of each function of an adapted document get a yes, where the document is closed.
pub fn traces_of_an_adapted_get_a_yes()
    ensures { AdaptedGetYes }
{}

/// The tests of the verdict hold exactly where the words of symbols pass, and return, as the machine
/// says of any values.
pub fn tests_tell_what_passes()
    ensures { TestsTell }
{}

/// Where the symbolic machine's run doesn't end, it names the event that has no rule.
pub fn a_stuck_run_names_its_event()
    ensures { RunsNamePlaces }
{}
