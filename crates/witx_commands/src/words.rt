//! The words of a command line: their command, with what they say.

ghost use Rattle.std.specs.Prelude.{◌≡◌, IfOk, IfSome, is_some, option_map, slice_index, true, false};
ghost use Rattle.std.specs.Int.{IsInRange};
ghost use Rattle.witx_commands.specs.Words.{IsBounded, asked_by, asked_of, asked_with, command_of, invoke_of, is_known, is_of_run, own_file, own_file_of, paths_of, sample_of, sample_size, two_files, two_files_of};

use crate::forms::Forms;
use std::alloc::Global;
use witx_base::{Items, OutOfMemory, Text, WitxPath};
use witx_sample::LARGEST_SAMPLE;

/// A new file and an old one, and names of modules two by two, each a new one and the old one that it
/// stands in for.
#[derive(Clone, Copy)]
pub struct TwoFiles<'a> {
    pub new: &'a Text,
    pub old: &'a Text,
    pub names: &'a [Text],
}

/// A file of the command's own, and the paths behind it.
#[derive(Clone, Copy)]
pub struct OwnFile<'a> {
    pub file: &'a Text,
    pub paths: &'a [Text],
}

/// The commands of the program, each with what its words say.
#[derive(Clone, Copy)]
pub enum Command<'a> {
    /// The listing of the adapted document.
    Adapt {
        paths: &'a [Text],
    },
    /// The printed document.
    Print {
        paths: &'a [Text],
    },
    /// The layouts of the typenames.
    Layouts {
        paths: &'a [Text],
    },
    /// The page of the document, in Markdown, and a note for each of its missing links.
    Docs {
        paths: &'a [Text],
    },
    /// The report on the modules of the old file in terms of those of the new one.
    Polyfill(TwoFiles<'a>),
    /// The summary of the sample of so many functions.
    Sample {
        functions: usize,
    },
    /// Which words of the old file's calls go where in the functions of the new file.
    Shim(TwoFiles<'a>),
    /// What the verdict says of the traces of a listing.
    Verify(OwnFile<'a>),
    /// What one call comes to, run over a memory of bytes, with the values in the file.
    Invoke {
        module: &'a Text,
        function: &'a Text,
        values: OwnFile<'a>,
    },
    /// What is wrong with the imports of a WebAssembly module.
    Imports(OwnFile<'a>),
}

impl Command<'_> {
    /// Whether it is one of those of `run`.
    pub fn is_of_run(&self) -> bool
        ensures { result ≡ is_of_run (asked_by self.now) }
    {
        match self {
            Command::Adapt { .. }
            | Command::Print { .. }
            | Command::Layouts { .. }
            | Command::Docs { .. }
            | Command::Polyfill(_)
            | Command::Sample { .. } => true,
            Command::Shim(_) | Command::Verify(_) | Command::Invoke { .. } | Command::Imports(_) =>
                false,
        }
    }

    /// Whether it has one of these forms.
    fn is_known(&self, known: Forms) -> bool
        ensures { result ≡ is_known known (asked_by self.now) }
    {
        match known {
            Forms::Commands => self.is_of_run(),
            Forms::All => true,
        }
    }
}

/// The command of the words of a command line, where they have one of the forms that are known.
#[tactic(auto, using(crate::proofs::Reading::known_rules))]
pub fn command_of(known: Forms, words: &[Text]) -> Option<Command<'_>>
    ensures command { option_map asked_by result ≡ command_of known words.now }
    ensures known { IfSome result (λ c. is_known known (asked_by c) ≡ true) }
    ensures bounded { IfSome result (λ c. IsBounded (asked_by c)) }
{
    let Some(command) = asked_of(words) else {
        return None;
    };
    if !command.is_known(known) {
        return None;
    }
    Some(command)
}

/// Whether the words of a command line have a form of `run`.
pub fn has_form(words: &[Text]) -> bool
    ensures { result ≡ is_some (command_of Forms.Commands words.now) }
{
    command_of(Forms::Commands, words).is_some()
}

/// The command of words of any form.
fn asked_of(words: &[Text]) -> Option<Command<'_>>
    ensures { option_map asked_by result ≡ asked_of words.now }
{
    if words.is_empty() {
        return None;
    }
    asked_with(words[0].as_str(), &words[1..])
}

#[tactic(auto, unfolding(witx_base::specs::Texts::same_text))]
fn asked_with<'a>(word: &str, arguments: &'a [Text]) -> Option<Command<'a>>
    ensures { option_map asked_by result ≡ asked_with word.now arguments.now }
{
    match word {
        "adapt" => Some(Command::Adapt { paths: arguments }),
        "print" => Some(Command::Print { paths: arguments }),
        "layouts" => Some(Command::Layouts { paths: arguments }),
        "docs" => Some(Command::Docs { paths: arguments }),
        "polyfill" => two_files_of(arguments).map(Command::Polyfill),
        "sample" => sample_of(arguments),
        "shim" => two_files_of(arguments).map(Command::Shim),
        "verify" => own_file_of(arguments).map(Command::Verify),
        "invoke" => invoke_of(arguments),
        "imports" => own_file_of(arguments).map(Command::Imports),
        _ => None,
    }
}

/// Two files, by their words and those of names in pairs.
fn two_files_of(arguments: &[Text]) -> Option<TwoFiles<'_>>
    ensures { option_map two_files result ≡ two_files_of arguments.now }
{
    if arguments.len() < 2 || arguments.len() % 2 != 0 {
        return None;
    }
    Some(TwoFiles {
        new: &arguments[0],
        old: &arguments[1],
        names: &arguments[2..],
    })
}

/// A file of the command's own, by its word and those of any paths.
fn own_file_of(arguments: &[Text]) -> Option<OwnFile<'_>>
    ensures { option_map own_file result ≡ own_file_of arguments.now }
{
    if arguments.is_empty() {
        return None;
    }
    Some(OwnFile {
        file: &arguments[0],
        paths: &arguments[1..],
    })
}

/// The call of a function, by the words of its names and of the file of its values.
fn invoke_of(arguments: &[Text]) -> Option<Command<'_>>
    ensures { option_map asked_by result ≡ invoke_of arguments.now }
{
    if arguments.len() < 2 {
        return None;
    }
    match own_file_of(&arguments[2..]) {
        Some(values) => Some(Command::Invoke {
            module: &arguments[0],
            function: &arguments[1],
            values,
        }),
        None => None,
    }
}

/// The sample of the one word behind.
fn sample_of(arguments: &[Text]) -> Option<Command<'_>>
    ensures { option_map asked_by result ≡ sample_of arguments.now }
{
    if arguments.len() != 1 {
        return None;
    }
    match sample_size(arguments[0].as_str()) {
        Some(functions) => Some(Command::Sample { functions }),
        None => None,
    }
}

/// The number of functions that is written as it is printed.
#[tactic(auto, using(crate::proofs::SampleWords::word_rules))]
fn sample_size(word: &str) -> Option<usize>
    ensures { result ≡ sample_size word.now }
{
    if !begins_as_printed(word) {
        return None;
    }
    let Ok(functions) = word.parse::<usize>() else {
        return None;
    };
    if LARGEST_SAMPLE < functions {
        return None;
    }
    Some(functions)
}

/// Whether a word begins as printed numbers from 1 on do: with a digit other than 0.
fn begins_as_printed(word: &str) -> bool
    ensures digit { result ≡ true → IsInRange 49 57 (slice_index word.now 0) }
    ensures other { result ≡ false → IsInRange 49 57 (slice_index word.now 0) → ⊥ }
{
    match word.as_bytes().first() {
        Some(byte) => b'1' <= *byte && *byte <= b'9',
        None => false,
    }
}

/// The paths that words spell.
#[tactic(auto, using(crate::proofs::Paths::path_rules))]
pub fn paths_of(alloc: Global, words: &[Text]) -> Result<Items<WitxPath>, OutOfMemory>
    ensures { IfOk result (λ paths. paths ≡ paths_of words.now) }
{
    let mut paths = Items::new(alloc);
    for word in words {
        paths.push(WitxPath::new(alloc, word.as_str())?)?;
    }
    Ok(paths)
}
