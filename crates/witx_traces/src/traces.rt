//! Laws on the traces that a text gives, as functions without work.

ghost use Rattle.witx_traces.specs.ReadBack.{OwnListingsAreReadBack, OwnTracesAreReadBack};
ghost use Rattle.witx_traces.specs.Traces.{LinesSayOneEvent, ListingShowsOwn, OneLineIsUnfit, TextsGiveOneTrace, TracesLeaveNoneUnfit};

/// The listing is the text with the events that the document was adapted with.
pub fn a_listing_shows_its_own_events()
    ensures { ListingShowsOwn }
{}

/// A line says at most one event, whatever names the types have.
pub fn a_line_says_at_most_one_event()
    ensures { LinesSayOneEvent }
{}

/// A text gives at most one list of traces, where each function of the modules has its entry.
pub fn a_text_gives_at_most_one_list_of_traces()
    ensures { TextsGiveOneTrace }
{}

/// A text that gives traces has no line that can't stand.
pub fn traces_leave_no_line_unfit()
    ensures { TracesLeaveNoneUnfit }
{}

/// A text has at most one first line that can't stand.
pub fn at_most_one_line_is_unfit()
    ensures { OneLineIsUnfit }
{}

/// The listing of an adapted document gives traces, its own, each type as what its text stands for. The document is closed,
/// and neither a blank nor a line feed stands in the name of a typename.
pub fn own_listings_are_read_back()
    ensures { OwnListingsAreReadBack }
{}

/// Where each type is what its text stands for, the listing gives the very traces of the adapted document.
pub fn own_traces_are_read_back()
    ensures { OwnTracesAreReadBack }
{}
