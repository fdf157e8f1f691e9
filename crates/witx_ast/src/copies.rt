//! Copies of types, of what they are made of, of the items of modules, and of the definitions of documents.
#![tactic(auto, using(crate::proofs::TreeKinds::kind_rules))]

ghost use Rattle.std.specs.Prelude.{◌≡◌};
ghost use Rattle.witx_ast.specs.Functions.{param_field, func_tree};
ghost use Rattle.witx_ast.specs.Copies.{HoldSame, HoldSameEntry, HoldSameItem, HoldSameItemEntry};
ghost use Rattle.witx_ast.specs.Views.{tree_of, datatype_tree, named_tree, record_tree, variant_tree, member_field, case_arm};

use crate::copying::{copied, copied_variant};
use crate::definition::{Constant, Definition, Entry};
use crate::function::{InterfaceFunc, InterfaceFuncParam};
use crate::module::{ModuleDefinition, ModuleEntry, ModuleImport};
use crate::types::{Case, Datatype, NamedType, RecordDatatype, RecordMember, TypeRef, Variant};
use std::alloc::AllocError;
use witx_base::{Duplicate, OutOfMemory};

impl Clone for TypeRef {
    ghost is_clone = { λ t copy. tree_of copy ≡ tree_of t };

    fn clone(&self) -> Result<TypeRef, AllocError> {
        copied_variant!(self => TypeRef { Name.clone, Value.clone })
    }
}

impl Duplicate for NamedType {
    ghost is_copy = { λ n c. named_tree c ≡ named_tree n };

    fn copy(&self) -> Result<NamedType, OutOfMemory> {
        copied!(self => NamedType { name, tref, docs })
    }
}

impl Duplicate for RecordMember {
    ghost is_copy = { λ m c. member_field c ≡ member_field m };

    fn copy(&self) -> Result<RecordMember, OutOfMemory> {
        copied!(self => RecordMember { name, tref, docs })
    }
}

impl Duplicate for Case {
    ghost is_copy = { λ a c. case_arm c ≡ case_arm a };

    fn copy(&self) -> Result<Case, OutOfMemory> {
        copied!(self => Case { name, tref, docs })
    }
}

impl Duplicate for RecordDatatype {
    ghost is_copy = { λ r c. record_tree c ≡ record_tree r };

    #[tactic(auto, using(crate::proofs::TreeKinds::kind_rules, crate::proofs::Copied::copy_rules))]
    fn copy(&self) -> Result<RecordDatatype, OutOfMemory> {
        copied!(self => RecordDatatype { members; kind })
    }
}

impl Duplicate for Variant {
    ghost is_copy = { λ v c. variant_tree c ≡ variant_tree v };

    #[tactic(auto, using(crate::proofs::TreeKinds::kind_rules, crate::proofs::Copied::copy_rules))]
    fn copy(&self) -> Result<Variant, OutOfMemory> {
        copied!(self => Variant { cases; tag_repr })
    }
}

impl Duplicate for Datatype {
    ghost is_copy = { λ d c. datatype_tree c ≡ datatype_tree d };

    fn copy(&self) -> Result<Datatype, OutOfMemory> {
        match self {
            Datatype::Record(record) => Ok(Datatype::Record(record.copy()?)),
            Datatype::Variant(variant) => Ok(Datatype::Variant(variant.copy()?)),
            Datatype::Handle(handle) => Ok(Datatype::Handle(*handle)),
            Datatype::List(tref) => Ok(Datatype::List(tref.clone()?)),
            Datatype::Pointer(tref) => Ok(Datatype::Pointer(tref.clone()?)),
            Datatype::ConstPointer(tref) => Ok(Datatype::ConstPointer(tref.clone()?)),
            Datatype::Builtin(builtin) => Ok(Datatype::Builtin(*builtin)),
        }
    }
}

impl Duplicate for TypeRef {
    ghost is_copy = { λ t c. tree_of c ≡ tree_of t };

    fn copy(&self) -> Result<TypeRef, OutOfMemory> {
        Ok(self.clone()?)
    }
}

impl Duplicate for InterfaceFuncParam {
    ghost is_copy = { λ p c. param_field c ≡ param_field p };

    fn copy(&self) -> Result<InterfaceFuncParam, OutOfMemory> {
        copied!(self => InterfaceFuncParam { name, tref, docs })
    }
}

impl Duplicate for InterfaceFunc {
    ghost is_copy = { λ f c. func_tree c ≡ func_tree f };

    #[tactic(auto, using(crate::proofs::Copied::copy_rules))]
    fn copy(&self) -> Result<InterfaceFunc, OutOfMemory> {
        copied!(self => InterfaceFunc { name, params, results, docs; abi, noreturn })
    }
}

impl Duplicate for ModuleImport {
    ghost is_copy = { λ i c. c ≡ i };

    fn copy(&self) -> Result<ModuleImport, OutOfMemory> {
        copied!(self => ModuleImport { name, docs; variant })
    }
}

impl Duplicate for ModuleDefinition {
    ghost is_copy = { HoldSameItem };

    fn copy(&self) -> Result<ModuleDefinition, OutOfMemory> {
        copied_variant!(self => ModuleDefinition { Import.clone, Func.clone })
    }
}

impl Clone for ModuleEntry {
    ghost is_clone = { HoldSameItemEntry };

    fn clone(&self) -> Result<ModuleEntry, AllocError> {
        copied_variant!(self => ModuleEntry { Import.clone, Func.clone })
    }
}

impl Duplicate for ModuleEntry {
    ghost is_copy = { HoldSameItemEntry };

    fn copy(&self) -> Result<ModuleEntry, OutOfMemory> {
        Ok(self.clone()?)
    }
}

impl Duplicate for Constant {
    ghost is_copy = { λ k c. c ≡ k };

    fn copy(&self) -> Result<Constant, OutOfMemory> {
        copied!(self => Constant { ty, name, docs; value })
    }
}

impl Duplicate for Definition {
    ghost is_copy = { HoldSame };

    fn copy(&self) -> Result<Definition, OutOfMemory> {
        copied_variant!(self => Definition { Typename.clone, Module.clone, Constant.copy })
    }
}

impl Clone for Entry {
    ghost is_clone = { HoldSameEntry };

    fn clone(&self) -> Result<Entry, AllocError> {
        copied_variant!(self => Entry { Typename.clone, Module.clone })
    }
}

impl Duplicate for Entry {
    ghost is_copy = { HoldSameEntry };

    fn copy(&self) -> Result<Entry, OutOfMemory> {
        Ok(self.clone()?)
    }
}
