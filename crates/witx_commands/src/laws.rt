//! What the bytes of a bundle and the words decide, and what told files do, as functions that do
//! nothing: each contract is a theorem.

ghost use Rattle.witx_commands.specs.ConstantTypes.{ConstantsHaveTypenames};
ghost use Rattle.witx_commands.specs.Laws.{OutputOrRefusal, ValidFilesAreNotRefused, ValidIsNotRefused};

use witx_walk::one_reading;

/// A command that has its output over the files of a bundle doesn't refuse them.
pub fn output_or_refusal()
    ensures { OutputOrRefusal }
{
    one_reading();
}

/// A bundle whose files are valid for a command isn't refused by it: they mean a document of which the
/// command tells everything.
pub fn valid_is_not_refused()
    ensures { ValidIsNotRefused }
{
    one_reading();
}

/// Told files that mean a document which can be adapted are refused by `adapt` only for want of
/// memory, unless a call of the reader failed.
pub fn valid_files_are_not_refused()
    ensures { ValidFilesAreNotRefused }
{
    one_reading();
}

/// The type of each constant of a document that texts mean is a typename of it, so a page of such a
/// document is never refused for a constant of an unknown type.
pub fn constants_have_typenames()
    ensures { ConstantsHaveTypenames }
{}
