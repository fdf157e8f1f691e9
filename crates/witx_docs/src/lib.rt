//! Documentation in Markdown: of documents and of polyfills.
#![tactic(auto)]

mod constants;
mod conversion_lines;
mod documentation;
mod documents;
mod error;
mod function_lines;
mod functions;
mod generate;
mod growing;
mod kept_layouts;
mod markdown;
mod page;
mod parts;
mod place;
mod polyfill;
mod setting;
mod written;

pub use documentation::Documentation;
pub use error::DocsError;
pub use generate::ToMarkdown;
pub use page::{closed_document_md, document_md};
pub use witx_markdown::{
    MdContent, MdFunc, MdHeading, MdInputs, MdNamedType, MdOutputs, MdSection, MdTree,
    MissingLinks, Numbers,
};
