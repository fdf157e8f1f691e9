//! What is read off a type: the type behind its names, its kind, flags, cases.
#![tactic(auto, using(crate::proofs::TreeKinds::kind_rules))]

ghost use Rattle.std.specs.{Prelude.{◌≡◌, true, false, map, option_map}, Option.{option_copied}};
ghost use Rattle.witx_ast.specs.{Tree.{behind}, Views.{tree_of, datatype_tree, named_tree, case_arm}};
ghost use Rattle.witx_ast.specs.Words.{is_named, kind_word, is_tuple_kind, flags_repr, all_arms_bare, expected_payloads, is_bool_arms};
ghost use Rattle.witx_ast.specs.declared.types.RecordDatatype.{out-RecordDatatype};
ghost use Rattle.witx_ast.specs.declared.types.Variant.{out-Variant};

use crate::types::{Datatype, IntRepr, NamedType, RecordDatatype, RecordKind, TypeRef, Variant};
use std::rc::Rc;

impl TypeRef {
    /// The type behind all names.
    pub fn type_(&self) -> &Rc<Datatype>
        ensures { datatype_tree result.now.value ≡ behind (tree_of self.now) }
    {
        let mut tref = self;
        loop {
            match tref {
                TypeRef::Name(named) => tref = &named.tref,
                TypeRef::Value(datatype) => return datatype,
            }
        }
    }

    /// Whether the type is a name.
    pub fn named(&self) -> bool
        ensures { result ≡ is_named (tree_of self.now) }
    {
        match self {
            TypeRef::Name(_) => true,
            TypeRef::Value(_) => false,
        }
    }
}

impl NamedType {
    /// The type behind all names.
    pub fn type_(&self) -> &Rc<Datatype>
        ensures { datatype_tree result.now.value ≡ behind (named_tree self.now) }
    {
        self.tref.type_()
    }
}

impl Datatype {
    /// The word for the kind of the type.
    pub fn kind(&self) -> &'static str
        ensures { result.now ≡ kind_word (datatype_tree self.now) }
    {
        match self {
            Datatype::Record(_) => "record",
            Datatype::Variant(_) => "variant",
            Datatype::Handle(_) => "handle",
            Datatype::List(_) => "list",
            Datatype::Pointer(_) => "pointer",
            Datatype::ConstPointer(_) => "constpointer",
            Datatype::Builtin(_) => "builtin",
        }
    }
}

impl RecordDatatype {
    /// Whether the record is a tuple.
    pub fn is_tuple(&self) -> bool
        ensures { result ≡ is_tuple_kind (out-RecordDatatype self.now).kind }
    {
        self.kind == RecordKind::Tuple
    }

    /// What flags are kept in; none for other records.
    pub fn bitflags_repr(&self) -> Option<IntRepr>
        ensures { result ≡ flags_repr (out-RecordDatatype self.now).kind }
    {
        match self.kind {
            RecordKind::Bitflags(repr) => Some(repr),
            RecordKind::Tuple | RecordKind::Other => None,
        }
    }
}

impl Variant {
    /// The payloads of `ok` and `err`, where these are the two cases, in this order.
    #[tactic(auto, using(crate::proofs::TreeKinds::kind_rules, crate::proofs::Pairs::pair_rules))]
    pub fn as_expected(&self) -> Option<(Option<&TypeRef>, Option<&TypeRef>)>
        ensures { option_map (λ p. (option_map tree_of (option_copied p.0), option_map tree_of (option_copied p.1))) result
            ≡ expected_payloads (map case_arm (out-Variant self.now).cases) }
    {
        let cases = self.cases.as_slice();
        if cases.len() != 2 {
            return None;
        }
        let ok = &cases[0];
        let err = &cases[1];
        if ok.name.is("ok") && err.name.is("err") {
            Some((ok.tref.as_ref(), err.tref.as_ref()))
        } else {
            None
        }
    }

    /// Whether the cases are `false` and `true`, in this order, without payload.
    #[tactic(auto, using(crate::proofs::TreeKinds::kind_rules, crate::proofs::Pairs::bool_rules))]
    pub fn is_bool(&self) -> bool
        ensures { result ≡ is_bool_arms (map case_arm (out-Variant self.now).cases) }
    {
        let cases = self.cases.as_slice();
        if cases.len() != 2 {
            return false;
        }
        let no = &cases[0];
        let yes = &cases[1];
        if no.name.is("false") && yes.name.is("true") {
            match (&no.tref, &yes.tref) {
                (None, None) => true,
                _ => false,
            }
        } else {
            false
        }
    }

    /// Whether no case has a payload; so it is without any case.
    #[tactic(auto, using(crate::proofs::TreeKinds::kind_rules, crate::proofs::Pairs::bare_rules))]
    pub fn is_enum(&self) -> bool
        ensures { result ≡ all_arms_bare (map case_arm (out-Variant self.now).cases) }
    {
        for case in self.cases.as_slice() {
            if case.tref.is_some() {
                return false;
            }
        }
        true
    }
}
