//! What holds of every sample that can be made, as functions that do nothing: each contract is a theorem.

ghost use Rattle.witx_sample_laws.specs.SampleLaws.{SampleWordsHaveASize, SamplesAreBundles, SamplesAreNotRefused, SamplesAreSummedUp, SamplesAreValid};

use witx_commands::valid_is_not_refused;
use witx_walk::one_answer;

/// The bytes of a sample are a bundle.
pub fn samples_are_bundles()
    ensures { SamplesAreBundles }
{}

/// The files of a sample's bundle are valid for the command: they mean a document that can be adapted.
pub fn samples_are_valid()
    ensures { SamplesAreValid }
{}

/// Words that have the form of a sample name one of 1 to 4,096 functions.
pub fn sample_words_have_a_size()
    ensures { SampleWordsHaveASize }
{}

/// In a run with the words of a sample none of the refusals has its cause, so it ends with status 0, or
/// with 4 or 5 where a sink fails or memory is wanting.
pub fn samples_are_not_refused()
    ensures { SamplesAreNotRefused }
{
    valid_is_not_refused();
}

/// Where such a run is answered, its text is the summary with 2n + 1 typenames, n functions, 42n events
/// and 40n + 2 bytes, and there are no notes.
pub fn samples_are_summed_up()
    ensures { SamplesAreSummedUp }
{
    one_answer();
}
