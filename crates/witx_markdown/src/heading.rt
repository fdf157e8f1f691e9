//! What a line of a page begins with.

ghost use Rattle.std.specs.{Prelude.{◌≡◌, ◌++◌, OnOk, codes, string_bytes}, List.{repeat}};
ghost use Rattle.witx_markdown.specs.Contents.{drawn, header_marks, level_down, heading_text};

use witx_base::OutOfMemory;

/// The deepest level of a header; a deeper one is drawn as this one.
const DEEPEST: usize = 65535;

/// What a line of a page begins with.
#[derive(Clone, Copy, PartialEq, Eq, Debug, Drop)]
pub enum MdHeading {
    /// So many `#` as its level says, 65,535 at most.
    Header { level: usize },
    /// `-`
    Bullet,
}

impl MdHeading {
    /// The header of that level, or of the deepest.
    pub fn new_header(level: usize) -> Self
        ensures { result ≡ header_marks level }
    {
        MdHeading::Header {
            level: drawn_level(level),
        }
    }

    /// The bullet, which has no level.
    pub fn new_bullet() -> Self
        ensures { result ≡ MdHeading.Bullet }
    {
        MdHeading::Bullet
    }

    /// The header one level deeper; a bullet stays one.
    pub fn new_level_down(&self) -> Self
        ensures { result ≡ level_down self.now }
    {
        match *self {
            MdHeading::Header { level } => MdHeading::new_header(level.saturating_add(1)),
            MdHeading::Bullet => MdHeading::Bullet,
        }
    }
}

fn drawn_level(level: usize) -> usize
    ensures { result ≡ drawn level }
{
    level.min(DEEPEST)
}

/// Appends what the line begins with.
pub fn put_heading(out: &mut String, heading: MdHeading) -> Result<(), OutOfMemory>
    ensures { OnOk result (string_bytes out.new ≡ string_bytes out.old ++ heading_text heading) }
{
    match heading {
        MdHeading::Header { level } => put_marks(out, drawn_level(level)),
        MdHeading::Bullet => put(out, "-"),
    }
}

fn put_marks(out: &mut String, level: usize) -> Result<(), OutOfMemory>
    ensures { OnOk result (string_bytes out.new ≡ string_bytes out.old ++ repeat level (codes "#")) }
{
    let marks = "#".repeat(*out.allocator(), level)?;
    out.push_str(&marks)?;
    Ok(())
}

/// Appends a text.
pub fn put(out: &mut String, text: &str) -> Result<(), OutOfMemory>
    ensures { OnOk result (string_bytes out.new ≡ string_bytes out.old ++ text.now) }
{
    out.push_str(text)?;
    Ok(())
}
