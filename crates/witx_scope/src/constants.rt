//! Constants: their keys, the greatest number of each integer type, and their checks.

ghost use Rattle.std.specs.Prelude.{◌≡◌, IfOk, OnOk, Some, None};
ghost use Rattle.witx_ast.specs.{Views.{named_tree}, Tree.{behind}};
ghost use Rattle.witx_scope.specs.{Blame.{BlamesOnErr}, Constants.{made_constant, repeated_constant}};
ghost use Rattle.witx_scope.specs.Faults.{first_fault};
ghost use Rattle.witx_scope.specs.{Integers.{greatest_number, greatest_in, value_check}, Senses.{here_of}};
ghost use Rattle.witx_scope.specs.Sites.{kept_in, place_at, checks_constant};
ghost use Rattle.witx_scope.specs.SyntaxChecks.{denoted_tree, integer_name_checks};

use crate::error::CheckError;
use crate::faults::{known, too_large, wrong_kind};
use crate::names::denoted;
use crate::place::SharedPlace;
use crate::scope::Scope;
use crate::site::Site;
use crate::tables::Tables;
use std::alloc::Global;
use std::collections::BTreeMap;
use witx_ast::{BuiltinType, Constant, Datatype, NamedType};
use witx_base::Id;
use witx_syntax_tree::{ConstSyntax, Documented, IdSyntax};

/// A constant goes by its type's name and its own.
#[derive(PartialEq, Eq, PartialOrd, Ord, Drop)]
pub struct ConstantName {
    pub ty: Id,
    pub name: Id,
}

/// The accepted constants, and where the name of each stands.
pub type ConstantPlaces = BTreeMap<ConstantName, SharedPlace>;

/// The greatest number of a builtin that is an integer.
pub fn greatest_number(of: BuiltinType) -> Option<u64>
    ensures { result ≡ greatest_number of }
{
    match of {
        BuiltinType::U8 { .. } => Some(255),
        BuiltinType::U16 => Some(65_535),
        BuiltinType::U32 { .. } => Some(4_294_967_295),
        BuiltinType::U64 => Some(18_446_744_073_709_551_615),
        BuiltinType::S8 => Some(127),
        BuiltinType::S16 => Some(32_767),
        BuiltinType::S32 => Some(2_147_483_647),
        BuiltinType::S64 => Some(9_223_372_036_854_775_807),
        BuiltinType::Char | BuiltinType::F32 | BuiltinType::F64 => None,
    }
}

/// The greatest number of a type that is an integer, names looked through.
#[tactic(auto, using(crate::proofs::Steps::step_rules))]
fn greatest_of(named: &NamedType) -> Option<u64>
    ensures { result ≡ greatest_in (behind (named_tree named.now)) }
{
    match &**named.type_() {
        Datatype::Builtin(of) => greatest_number(*of),
        Datatype::Record(_)
        | Datatype::Variant(_)
        | Datatype::Handle(_)
        | Datatype::List(_)
        | Datatype::Pointer(_)
        | Datatype::ConstPointer(_) => None,
    }
}

/// The greatest number of a constant's type, whose name denotes an integer.
fn greatest_named(scope: &Scope<'_>, ty: &IdSyntax<'_>) -> Result<u64, CheckError>
    ensures ok { OnOk result (first_fault (integer_name_checks (here_of scope.now) ty.now) ≡ None) }
    ensures greatest { IfOk result (λ n. greatest_in (behind (denoted_tree (here_of scope.now) ty.now)) ≡ Some n) }
    ensures fault { BlamesOnErr result (first_fault (integer_name_checks (here_of scope.now) ty.now)) }
{
    let named = denoted(scope, ty)?;
    scope.steps.take_names(&named.tref)?;
    match greatest_of(named) {
        Some(largest) => Ok(largest),
        None => {
            let kind = named.type_().kind();
            Err(wrong_kind(scope, ty.name, "integer", kind, ty.span.start))
        }
    }
}

/// The constant of a declaration whose name stands at `place`, if none of its type has the name.
#[tactic(auto, using(crate::proofs::ConstantKeys::key_rules))]
fn new_constant(
    places: &ConstantPlaces,
    place: &SharedPlace,
    alloc: Global,
    decl: &Documented<'_, ConstSyntax<'_>>,
) -> Result<Constant, CheckError>
    ensures ok { OnOk result (repeated_constant places.now.entries decl.now.item place.now ≡ None) }
    ensures constant { IfOk result (λ c. c ≡ made_constant decl.now) }
    ensures fault { BlamesOnErr result (repeated_constant places.now.entries decl.now.item place.now) }
{
    let key = ConstantName {
        ty: Id::new(alloc, decl.item.ty.name)?,
        name: Id::new(alloc, decl.item.name.name)?,
    };
    match places.get(&key) {
        Some(before) => Err(known(alloc, &key.name, place, before)),
        None => {
            let docs = decl.comments.docs(alloc)?;
            Ok(Constant {
                ty: key.ty,
                name: key.name,
                value: decl.item.value,
                docs,
            })
        }
    }
}

/// Refuses the value of the constant of this name, where it is greater than `largest`.
fn checked_value(
    scope: &Scope<'_>,
    name: &IdSyntax<'_>,
    value: u64,
    largest: u64,
) -> Result<(), CheckError>
    ensures ok { OnOk result (value_check name.now.name.now value
        ((here_of scope.now).place name.now.span.start) (Some largest) ≡ None) }
    ensures fault { BlamesOnErr result
        (value_check name.now.name.now value ((here_of scope.now).place name.now.span.start) (Some largest)) }
{
    if value <= largest {
        Ok(())
    } else {
        Err(too_large(scope, name.name, value, largest, name.span.start))
    }
}

/// The constant of a declaration: its type is checked, then its name, then its value.
pub fn checked_constant(
    tables: &Tables,
    site: &Site<'_>,
    decl: &Documented<'_, ConstSyntax<'_>>,
) -> Result<Constant, CheckError>
    requires { site.now.place ≡ place_at site.now decl.now.item.name }
    ensures ok { OnOk result (first_fault (checks_constant (kept_in tables.now) site.now decl.now.item) ≡ None) }
    ensures constant { IfOk result (λ c. c ≡ made_constant decl.now) }
    ensures fault { BlamesOnErr result (first_fault (checks_constant (kept_in tables.now) site.now decl.now.item)) }
{
    let scope = Scope {
        names: &tables.names,
        unfinished: &tables.unfinished,
        entries: &tables.entries,
        text: site.text,
        path: site.path,
        steps: &tables.steps,
        alloc: tables.alloc,
    };
    let largest = greatest_named(&scope, &decl.item.ty)?;
    let constant = new_constant(&tables.constants, &site.place, tables.alloc, decl)?;
    checked_value(&scope, &decl.item.name, decl.item.value, largest)?;
    Ok(constant)
}
