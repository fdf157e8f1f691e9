//! What a node of a page holds.

ghost use Rattle.std.specs.Prelude.{◌≡◌, [], IfOk, None, option_map};
ghost use Rattle.witx_markdown.specs.Contents.{content_id, content_docs, content_with_docs};

use crate::heading::MdHeading;
use std::alloc::Global;
use witx_base::{Items, OutOfMemory, Text};

/// A heading over what stands below it.
#[derive(Debug, Drop)]
pub struct MdSection {
    pub heading: MdHeading,
    /// What links name to lead here.
    pub id: Option<Text>,
    pub title: Text,
}

impl MdSection {
    /// A section without an id.
    pub fn new(alloc: Global, heading: MdHeading, title: &str) -> Result<MdSection, OutOfMemory>
        ensures { IfOk result (λ s. s ≡ record { heading = heading; id = None; title = title.now }) }
    {
        Ok(MdSection {
            heading,
            id: None,
            title: Text::new(alloc, title)?,
        })
    }
}

/// What has a name and perhaps a type: a typename, a member, a case, a parameter, a constant.
#[derive(Debug, Drop)]
pub struct MdNamedType {
    pub heading: MdHeading,
    pub id: Text,
    pub name: Text,
    pub docs: Text,
    /// The type as it is shown.
    pub ty: Option<Text>,
}

impl MdNamedType {
    /// One without a type.
    pub fn new(
        alloc: Global,
        heading: MdHeading,
        id: &str,
        name: &str,
        docs: &str,
    ) -> Result<MdNamedType, OutOfMemory>
        ensures { IfOk result (λ n. n
            ≡ record { heading = heading; id = id.now; name = name.now; docs = docs.now; ty = None }) }
    {
        let id = Text::new(alloc, id)?;
        let name = Text::new(alloc, name)?;
        let docs = Text::new(alloc, docs)?;
        Ok(MdNamedType {
            heading,
            id,
            name,
            docs,
            ty: None,
        })
    }
}

/// Parameters as a function's line shows them: each name with its type.
pub type MdInputs = Items<(Text, Text)>;

/// The types of results as a function's line shows them.
pub type MdOutputs = Items<Text>;

/// A function.
#[derive(Debug, Drop)]
pub struct MdFunc {
    pub heading: MdHeading,
    pub id: Text,
    pub name: Text,
    pub inputs: MdInputs,
    pub outputs: MdOutputs,
    pub docs: Text,
}

impl MdFunc {
    /// One without inputs and outputs.
    pub fn new(
        alloc: Global,
        heading: MdHeading,
        id: &str,
        name: &str,
        docs: &str,
    ) -> Result<MdFunc, OutOfMemory>
        ensures { IfOk result (λ f. f ≡ record
            { heading = heading; id = id.now; name = name.now; inputs = []; outputs = []; docs = docs.now }) }
    {
        let id = Text::new(alloc, id)?;
        let name = Text::new(alloc, name)?;
        let docs = Text::new(alloc, docs)?;
        Ok(MdFunc {
            heading,
            id,
            name,
            inputs: MdInputs::new(alloc),
            outputs: MdOutputs::new(alloc),
            docs,
        })
    }
}

/// What a node of a page holds.
#[derive(Debug, Drop)]
pub enum MdContent {
    /// The page itself, which has no text of its own.
    Root,
    /// A heading over what stands below it.
    Section(MdSection),
    /// What has a name and perhaps a type.
    Named(MdNamedType),
    /// A function.
    Func(MdFunc),
}

impl MdContent {
    /// What links name to lead here; a root has none.
    pub fn id(&self) -> Option<&str>
        ensures { option_map (λ id. id.now) result ≡ content_id self.now }
    {
        match self {
            MdContent::Root => None,
            MdContent::Section(section) => match &section.id {
                Some(id) => Some(id.as_str()),
                None => None,
            },
            MdContent::Named(named) => Some(named.id.as_str()),
            MdContent::Func(func) => Some(func.id.as_str()),
        }
    }

    /// The documentation; a root and a section have none.
    pub fn docs(&self) -> Option<&str>
        ensures { option_map (λ docs. docs.now) result ≡ content_docs self.now }
    {
        match self {
            MdContent::Root | MdContent::Section(_) => None,
            MdContent::Named(named) => Some(named.docs.as_str()),
            MdContent::Func(func) => Some(func.docs.as_str()),
        }
    }

    /// Sets the documentation; a root and a section stay as they are.
    pub fn set_docs(&mut self, docs: Text)
        ensures { self.new ≡ content_with_docs self.old docs }
    {
        match self {
            MdContent::Named(named) => named.docs = docs,
            MdContent::Func(func) => func.docs = docs,
            MdContent::Root | MdContent::Section(_) => {}
        }
    }
}
