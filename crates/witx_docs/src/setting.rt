//! What is set of a node's content.

ghost use Rattle.std.specs.Prelude.{◌≡◌};
ghost use Rattle.witx_markdown.specs.Contents.{with_type, with_title, with_signature};

use witx_base::Text;
use witx_markdown::{MdContent, MdInputs, MdOutputs};

/// Sets the type of a named content; any other stays as it is.
pub fn set_type(content: &mut MdContent, ty: Text)
    ensures { content.new ≡ with_type content.old ty }
{
    if let MdContent::Named(named) = content {
        named.ty = Some(ty);
    }
}

/// Sets the title of a section; any other content stays as it is.
pub fn set_title(content: &mut MdContent, title: Text)
    ensures { content.new ≡ with_title content.old title }
{
    if let MdContent::Section(section) = content {
        section.title = title;
    }
}

/// Sets inputs and outputs of a function; any other content stays as it is.
pub fn set_signature(content: &mut MdContent, inputs: MdInputs, outputs: MdOutputs)
    ensures { content.new ≡ with_signature content.old inputs outputs }
{
    if let MdContent::Func(func) = content {
        func.inputs = inputs;
        func.outputs = outputs;
    }
}
