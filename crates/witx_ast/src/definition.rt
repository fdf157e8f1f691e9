//! The definitions of a document, in order and by name, and its constants.

ghost use Rattle.std.specs.Prelude.{◌≡◌, ◌∷◌, ◌++◌, [], length, is_ok, if◌then◌else◌, option_map, slice_get, take};
ghost use Rattle.std.specs.Slice.Iter.{iter_rest};
ghost use Rattle.witx_ast.specs.{Kinds.{typename_kind, module_kind, constant_kind}, EntryWords.{entry_word}};

use crate::copying::copied;
use crate::holding::held_by;
use crate::kinds::{Kind, OfKind};
use crate::module::Module;
use crate::types::NamedType;
use std::alloc::Global;
use std::marker::Model;
use std::rc::Rc;
use std::slice::Iter;
use witx_base::{Duplicate, Id, Items, NameMap, OutOfMemory, Text};

/// A named number of a type.
#[derive(PartialEq, Eq, Hash, Debug, Drop)]
pub struct Constant {
    /// The name of its type.
    pub ty: Id,
    pub name: Id,
    pub value: u64,
    pub docs: Text,
}

/// What a document defines.
#[derive(PartialEq, Eq, Hash, Debug, Drop)]
pub enum Definition {
    Typename(Rc<NamedType>),
    Module(Rc<Module>),
    Constant(Constant),
}

/// What stands under a name in a document.
#[derive(PartialEq, Eq, Debug, Drop)]
pub enum Entry {
    Typename(Rc<NamedType>),
    Module(Rc<Module>),
}

impl Entry {
    /// The word for its kind: `typename` or `module`.
    pub fn kind(&self) -> &'static str
        ensures { result.now ≡ entry_word self.now }
    {
        match self {
            Entry::Typename(_) => "typename",
            Entry::Module(_) => "module",
        }
    }
}

/// Typenames and modules by name.
pub type Entries = NameMap<Entry>;

impl Kind<Definition> for Rc<NamedType> {
    ghost of_kind = { typename_kind };

    fn of(definition: &Definition) -> Option<&Rc<NamedType>> {
        held_by!(definition, Definition::Typename(named) => named)
    }
}

impl Kind<Definition> for Rc<Module> {
    ghost of_kind = { module_kind };

    fn of(definition: &Definition) -> Option<&Rc<Module>> {
        held_by!(definition, Definition::Module(module) => module)
    }
}

impl Kind<Definition> for Constant {
    ghost of_kind = { constant_kind };

    fn of(definition: &Definition) -> Option<&Constant> {
        held_by!(definition, Definition::Constant(constant) => constant)
    }
}

/// The typenames of a document, in order.
pub type Typenames<'a> = OfKind<'a, Definition, Rc<NamedType>>;

/// The modules of a document, in order.
pub type Modules<'a> = OfKind<'a, Definition, Rc<Module>>;

/// The constants of a document, in order.
pub type Constants<'a> = OfKind<'a, Definition, Constant>;

/// The definitions of a document, in order.
///
/// They are dropped from the last to the first. A type names types that stand before it alone, so
/// each finds those still held, and a long chain of names is dropped without recursion.
#[derive(PartialEq, Eq, Hash, Debug)]
pub struct Definitions {
    items: Items<Definition>,
}

impl Model for Definitions {
    ghost use Rattle.std.specs.{Prelude.{List}, Coded.{codes}};
    ghost use Rattle.witx_ast.specs.declared.definition.Definition.{Definition};
    ghost use Rattle.witx_ast.specs.contracts.definition.Definition as d;

    ghost Value = { List Definition };

    ghost coded = { Prim.hlevel (codes, d.the_row.coded) };

    ghost view = { λ ds. ds.items };

    ghost inverse = { λ definitions. record { items = definitions } };
}

impl Drop for Definitions {
    fn drop(mut self) {
        for len in (0..self.items.len()).rev() {
            self.items.truncate(len);
        }
        let Definitions { items } = self;
        drop(items);
    }
}

impl Definitions {
    /// The empty list; takes no memory.
    pub fn new(alloc: Global) -> Definitions
        ensures { result ≡ [] }
    {
        Definitions {
            items: Items::new(alloc),
        }
    }

    /// Where the list takes its memory from.
    pub fn allocator(&self) -> Global {
        self.items.allocator()
    }

    /// The number of definitions.
    pub fn len(&self) -> usize
        ensures { result ≡ length self.now }
    {
        self.items.len()
    }

    /// The definition numbered `i`, from 0; none past the end.
    pub fn get(&self, i: usize) -> Option<&Definition>
        ensures { option_map (λ d. d.now) result ≡ slice_get self.now i }
    {
        self.items.get(i)
    }

    /// The definitions, borrowed.
    pub fn as_slice(&self) -> &[Definition]
        ensures { result.now ≡ self.now }
    {
        self.items.as_slice()
    }

    /// The definitions, from the first to the last.
    pub fn iter(&self) -> Iter<'_, Definition>
        ensures { iter_rest result ≡ self.now }
    {
        self.items.iter()
    }

    /// Appends a definition; a refused push changes nothing.
    pub fn push(&mut self, definition: Definition) -> Result<(), OutOfMemory>
        ensures { self.new ≡ (if is_ok result then self.old ++ definition ∷ [] else self.old) }
    {
        self.items.push(definition)
    }

    /// Takes memory for so many definitions more, at once; the definitions stay.
    pub fn reserve(&mut self, additional: usize) -> Result<(), OutOfMemory>
        ensures { self.new ≡ self.old }
    {
        self.items.reserve(additional)
    }

    /// Drops the definitions from the one numbered `len` on.
    pub fn truncate(&mut self, len: usize)
        ensures { self.new ≡ take len self.old }
    {
        self.items.truncate(len);
    }
}

impl Duplicate for Definitions {
    ghost use Rattle.std.specs.List.{AllZip};
    ghost use Rattle.witx_ast.specs.Copies.{HoldSame};

    ghost is_copy = { AllZip HoldSame };

    fn copy(&self) -> Result<Definitions, OutOfMemory> {
        copied!(self => Definitions { items })
    }
}

impl<'a> IntoIterator for &'a Definitions {
    type Item = &'a Definition;

    type IntoIter = Iter<'a, Definition>;

    ghost into_iter_gives = { λ ds r. iter_rest r ≡ ds.now };

    fn into_iter(self) -> Iter<'a, Definition> {
        self.items.iter()
    }
}
