//! How a name's text is held: a short one in the name itself, a longer one once for all its copies.

ghost use Rattle.std.specs.{Prelude.{◌≡◌, ◌≤◌, IfOk, drop, get_or, length}, Ordering.{nat_cmp}, Str.{IsUtf8}};
ghost use Rattle.std.specs.Cmp.Lexicographic.{slice_cmp};
ghost use Rattle.witx_base.specs.{Fronts.{AreBytes, back_of, front_of, number_of_eight}, Spellings.{spelled}};

use crate::memory::OutOfMemory;
use crate::text::Text;
use std::alloc::Global;
use std::cmp::Ordering;
use std::fmt;
use std::marker::Model;
use std::rc::Rc;

/// How many bytes a name holds of itself.
const ROOM: usize = 15;

/// The byte at a place of a text; 0 behind its end.
fn byte_at(bytes: &[u8], place: usize) -> u8
    ensures { result ≡ get_or bytes.now place 0 }
{
    match bytes.get(place) {
        Some(byte) => *byte,
        None => 0,
    }
}

/// The number of a text's first eight bytes, the first one greatest.
fn front_of(text: &str) -> u64
    ensures { result ≡ front_of text.now }
{
    let bytes = text.as_bytes();
    u64::from_be_bytes([
        byte_at(bytes, 0),
        byte_at(bytes, 1),
        byte_at(bytes, 2),
        byte_at(bytes, 3),
        byte_at(bytes, 4),
        byte_at(bytes, 5),
        byte_at(bytes, 6),
        byte_at(bytes, 7),
    ])
}

/// A text of at most 15 bytes, with zeros behind it, so that two numbers and its length tell it
/// from any other.
#[derive(Drop)]
pub struct ShortText {
    bytes: [u8; ROOM],
    len: u8,
}

impl Model for ShortText {
    ghost use Rattle.std.specs.Prelude.{List, ℕ, take};
    ghost use Rattle.witx_base.specs.ShortTexts.{IsShortText};

    ghost Value = { List ℕ };

    ghost view = { λ t. take t.len t.bytes };

    ghost invariant = { λ t. IsShortText t.bytes t.len };
}

impl ShortText {
    /// The text `s`, in place.
    pub fn new(s: &str) -> ShortText
        requires { length s.now ≤ 15 }
        ensures { result ≡ s.now }
    {
        let mut bytes = [0; ROOM];
        bytes[..s.len()].copy_from_slice(s.as_bytes());
        ShortText {
            bytes,
            len: s.len() as u8,
        }
    }

    /// The same text a second time.
    pub fn copy(&self) -> ShortText
        ensures { result ≡ self.now }
    {
        ShortText {
            bytes: self.bytes,
            len: self.len,
        }
    }

    /// The bytes of the text.
    pub fn as_bytes(&self) -> &[u8]
        ensures value { result.now ≡ self.now }
        ensures utf8 { IsUtf8 result.now }
    {
        &self.bytes[..self.len as usize]
    }

    /// The text, borrowed.
    pub fn as_str(&self) -> &str
        ensures { result.now ≡ self.now }
    {
        match std::str::from_utf8(self.as_bytes()) {
            Ok(text) => text,
            Err(_) => unreachable!(),
        }
    }

    /// The number of eight bytes, the first of which has this place.
    #[inline]
    fn number_from(&self, at: usize) -> u64
        requires { at ≤ 7 }
        ensures { result ≡ number_of_eight (drop at self.now) }
    {
        let bytes = &self.bytes;
        u64::from_be_bytes([
            bytes[at],
            bytes[at + 1],
            bytes[at + 2],
            bytes[at + 3],
            bytes[at + 4],
            bytes[at + 5],
            bytes[at + 6],
            bytes[at + 7],
        ])
    }

    /// The number of the first eight bytes.
    #[inline]
    pub fn front(&self) -> u64
        ensures { result ≡ front_of self.now }
    {
        self.number_from(0)
    }

    /// The number of the eight bytes behind the first seven.
    #[inline]
    pub fn back(&self) -> u64
        ensures { result ≡ back_of self.now }
    {
        self.number_from(7)
    }

    /// The order of two texts of one front.
    pub fn order_behind(&self, other: &ShortText) -> Ordering
        requires bytes { AreBytes self.now }
        requires other_bytes { AreBytes other.now }
        requires one_front { front_of self.now ≡ front_of other.now }
        ensures { result ≡ slice_cmp nat_cmp self.now other.now }
    {
        let back = self.back();
        let other_back = other.back();
        if back == other_back {
            self.len.cmp(&other.len)
        } else {
            back.cmp(&other_back)
        }
    }
}

/// The text of a name: in place where it has at most 15 bytes, else once for all its copies.
#[derive(Drop)]
pub enum Spelling {
    /// The name holds its text.
    Short(ShortText),
    /// The text lies once for the name and its copies.
    Long(Rc<Text>),
}

impl Spelling {
    /// The spelling `s`; a short one takes no memory.
    pub fn new(alloc: Global, s: &str) -> Result<Spelling, OutOfMemory>
        ensures { IfOk result (λ made. spelled made ≡ s.now) }
    {
        if s.len() <= ROOM {
            Ok(Spelling::Short(ShortText::new(s)))
        } else {
            Ok(Spelling::Long(Rc::new(alloc, Text::new(alloc, s)?)?))
        }
    }

    /// The same spelling a second time.
    pub fn copy(&self) -> Result<Spelling, OutOfMemory>
        ensures { IfOk result (λ made. spelled made ≡ spelled self.now) }
    {
        match self {
            Spelling::Short(text) => Ok(Spelling::Short(text.copy())),
            Spelling::Long(text) => Ok(Spelling::Long(text.clone()?)),
        }
    }

    /// The bytes of the text.
    pub fn as_bytes(&self) -> &[u8]
        ensures { result.now ≡ spelled self.now }
    {
        match self {
            Spelling::Short(text) => text.as_bytes(),
            Spelling::Long(text) => text.as_str().as_bytes(),
        }
    }

    /// The text.
    pub fn as_str(&self) -> &str
        ensures { result.now ≡ spelled self.now }
    {
        match self {
            Spelling::Short(text) => text.as_str(),
            Spelling::Long(text) => text.as_str(),
        }
    }

    /// The number of the first eight bytes.
    pub fn front(&self) -> u64
        ensures { result ≡ front_of (spelled self.now) }
    {
        match self {
            Spelling::Short(text) => text.front(),
            Spelling::Long(text) => front_of(text.as_str()),
        }
    }

    /// The order of two spellings of one front. Most pairs differ in their fronts, so this stays out
    /// of line.
    #[inline(never)]
    pub fn order_behind(&self, other: &Spelling) -> Ordering
        requires bytes { AreBytes (spelled self.now) }
        requires other_bytes { AreBytes (spelled other.now) }
        requires one_front { front_of (spelled self.now) ≡ front_of (spelled other.now) }
        ensures { result ≡ slice_cmp nat_cmp (spelled self.now) (spelled other.now) }
    {
        match (self, other) {
            (Spelling::Short(text), Spelling::Short(other_text)) => text.order_behind(other_text),
            (Spelling::Long(text), Spelling::Long(other_text)) => text
                .as_str()
                .cmp(other_text.as_str()),
            _ => self.as_bytes().cmp(other.as_bytes()),
        }
    }
}

// A spelling is shown as the `Text` that it stands for, wherever that lies.
impl fmt::Debug for Spelling {
    fn fmt<W: fmt::Write>(&self, f: &mut fmt::Formatter<W>) -> fmt::Result {
        f.debug_struct("Text")
            .field("string", &self.as_str())
            .finish()
    }
}
