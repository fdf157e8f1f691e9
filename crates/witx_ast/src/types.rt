//! Types: a use by name or written out, records, variants, handles, lists, pointers and builtins.

use crate::written::feed_type;
use std::hash::{Hash, Hasher};
use std::rc::Rc;
use witx_base::{Id, Items, Text};

/// The types without parts.
#[derive(Clone, Copy, PartialEq, Eq, Hash, Debug, Drop)]
pub enum BuiltinType {
    Char,
    /// `lang_c_char`: a character of C.
    U8 { lang_c_char: bool },
    U16,
    /// `lang_ptr_size`: as wide as a pointer.
    U32 { lang_ptr_size: bool },
    U64,
    S8,
    S16,
    S32,
    S64,
    F32,
    F64,
}

/// What flags and the tags of variants are kept in.
#[derive(Clone, Copy, PartialEq, Eq, Hash, Debug, Drop)]
pub enum IntRepr {
    U8,
    U16,
    U32,
    U64,
}

/// What a record stands for.
#[derive(Clone, Copy, PartialEq, Eq, Hash, Debug, Drop)]
pub enum RecordKind {
    /// Its members are told by their places.
    Tuple,
    /// Flags: one truth value per member.
    Bitflags(IntRepr),
    Other,
}

/// A reference that a module can use and not make.
#[derive(Clone, Copy, PartialEq, Eq, Hash, Debug, Drop)]
pub struct HandleDatatype;

/// A use of a type: by its name, or written out. Equal where the trees are equal.
#[cycle(ast)]
#[derive(Debug, Drop)]
pub enum TypeRef {
    Name(Rc<NamedType>),
    Value(Rc<Datatype>),
}

// By their trees, so that the derived comparisons of the types below say the same.
impl PartialEq for TypeRef {
    ghost use Rattle.std.specs.Cmp.{on_per, partial_equiv_from_equiv};
    ghost use Rattle.witx_ast.specs.{Views.{tree_of}, Same.{same_tree}, SameLaws.{tree_equivalence}};

    ghost eq = { λ a b. same_tree (tree_of a) (tree_of b) };

    ghost laws = { on_per tree_of (partial_equiv_from_equiv tree_equivalence) };

    // Along a chain of names by a loop, so that however long it is, it takes no stack.
    #[cycle(ast)]
    #[tactic(auto, using(crate::proofs::Equal::same_rules, crate::proofs::Sizes::size_rules))]
    fn eq(&self, other: &TypeRef) -> bool {
        let mut left = self;
        let mut right = other;
        loop {
            match (left, right) {
                (TypeRef::Name(a), TypeRef::Name(b)) => {
                    if !a.is_called_as(b) {
                        return false;
                    }
                    left = &a.tref;
                    right = &b.tref;
                }
                (TypeRef::Value(a), TypeRef::Value(b)) => return **a == **b,
                _ => return false,
            }
        }
    }
}

impl Eq for TypeRef {
    ghost use Rattle.std.specs.Cmp.{on_equiv};
    ghost use Rattle.witx_ast.specs.{Views.{tree_of}, SameLaws.{tree_equivalence}};

    ghost laws = { on_equiv tree_of tree_equivalence };
}

// As it is written: equal types hash alike.
impl Hash for TypeRef {
    ghost use Rattle.witx_ast.specs.{Views.{tree_of}, Written.{type_writes, written-alike}};

    ghost hash_input = { λ t. type_writes (tree_of t) };

    ghost respects_eq = { λ a b h. written-alike (tree_of a) (tree_of b) h };

    fn hash<H: Hasher>(&self, state: &mut H) {
        feed_type(self, state);
    }
}

/// A name, and the type that it stands for.
#[cycle(ast)]
#[derive(PartialEq, Eq, Hash, Debug, Drop)]
pub struct NamedType {
    pub name: Id,
    pub tref: TypeRef,
    pub docs: Text,
}

impl NamedType {
    ghost use Rattle.std.specs.Prelude.{◌≡◌, ◌&&◌};
    ghost use Rattle.witx_base.specs.SameBytes.{same_bytes};

    // Whether the name and the documentation are the same, whatever the names stand for.
    fn is_called_as(&self, other: &NamedType) -> bool
        ensures { result ≡ (same_bytes self.now.name other.now.name && same_bytes self.now.docs other.now.docs) }
    {
        self.name == other.name && self.docs == other.docs
    }
}

/// A type that is written out.
#[cycle(ast)]
#[derive(PartialEq, Eq, Hash, Debug, Drop)]
pub enum Datatype {
    Record(RecordDatatype),
    Variant(Variant),
    Handle(HandleDatatype),
    List(TypeRef),
    Pointer(TypeRef),
    ConstPointer(TypeRef),
    Builtin(BuiltinType),
}

/// A record: a tuple, flags, or members with names.
#[cycle(ast)]
#[derive(PartialEq, Eq, Hash, Debug, Drop)]
pub struct RecordDatatype {
    pub kind: RecordKind,
    pub members: Members,
}

/// The members of a record, in order.
pub type Members = Items<RecordMember>;

/// A member of a record.
#[cycle(ast)]
#[derive(PartialEq, Eq, Hash, Debug, Drop)]
pub struct RecordMember {
    pub name: Id,
    pub tref: TypeRef,
    pub docs: Text,
}

/// A choice of cases.
#[cycle(ast)]
#[derive(PartialEq, Eq, Hash, Debug, Drop)]
pub struct Variant {
    pub tag_repr: IntRepr,
    pub cases: Cases,
}

/// The cases of a variant, in order.
pub type Cases = Items<Case>;

/// A case of a variant, with its payload if it has one.
#[cycle(ast)]
#[derive(PartialEq, Eq, Hash, Debug, Drop)]
pub struct Case {
    pub name: Id,
    pub tref: Option<TypeRef>,
    pub docs: Text,
}
