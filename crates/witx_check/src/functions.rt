//! Functions: their parameters, their results, and whether their ABI permits these.

ghost use Rattle.std.specs.Prelude.{◌≡◌, ◌∷◌, ◌++◌, IfOk, IfErr, OnOk, None, [], map};
ghost use Rattle.witx_base.specs.Found.{found};
ghost use Rattle.witx_ast.specs.{Views.{tree_of}, Functions.{param_field, func_tree}};
ghost use Rattle.witx_scope.specs.{Faults.{first_fault}, Names.{FindsOnOk, new_mark}, Checks.{field_checks}};
ghost use Rattle.witx_scope.specs.Functions.{abi_of, fields_scope, result_checks, checks_inside, checks_func, makes_func, with_export};
ghost use Rattle.witx_scope.specs.{SyntaxChecks.{made_field}, Blame.{Blames}, Senses.{here_of}};
ghost use Rattle.witx_check.specs.Params.{AreParams};
ghost use Rattle.witx_comments.specs.Comments.{comments_view};
ghost use Rattle.witx_syntax_tree.specs.Views.{fields_view};

use crate::types::checked_type;
use std::alloc::Global;
use witx_ast::{Abi, InterfaceFunc, InterfaceFuncParam, Params, TypeRef};
use witx_base::{Id, OutOfMemory};
use witx_scope::{CheckError, Marks, Scope, abi_fault, introduce_mark, with_room};
use witx_syntax_tree::{CommentSyntax, Documented, FieldSyntax, InterfaceFuncSyntax};

/// The ABI of a function, by whether its result is stored whole.
fn abi_of(stored: bool) -> Abi
    ensures { result ≡ abi_of stored }
{
    if stored { Abi::Stored } else { Abi::Preview1 }
}

/// Puts a parameter or a result, with its documentation, behind the others.
#[tactic(auto, using(crate::proofs::Params::push_rules))]
fn push_param(
    params: &mut Params,
    alloc: Global,
    name: Id,
    tref: TypeRef,
    comments: &CommentSyntax<'_>,
) -> Result<(), OutOfMemory>
    ensures { OnOk result (map param_field params.new
        ≡ map param_field params.old ++ made_field name (tree_of tref) comments.now ∷ []) }
{
    let docs = comments.docs(alloc)?;
    params.push(InterfaceFuncParam { name, tref, docs })?;
    Ok(())
}

/// The parameters of a function. The name of each is taken in before its type is checked.
#[tactic(auto, using(crate::proofs::Params::param_rules))]
pub fn checked_params(
    fields: &[Documented<'_, FieldSyntax<'_>>],
    scope: &Scope<'_>,
    names: &mut Marks,
) -> Result<Params, CheckError>
    ensures ok { OnOk result (first_fault (field_checks (here_of scope.now) names.old (fields_view fields.now)) ≡ None) }
    ensures tree { IfOk result (AreParams scope.now fields.now) }
    ensures kept { OnOk result ((q : _) → found names.new q ≡ found (fields_scope names.old (fields_view fields.now)) q) }
    ensures fault { IfErr result
        (λ e. Blames e (first_fault (field_checks (here_of scope.now) names.old (fields_view fields.now)))) }
{
    let mut params: Params = with_room(scope.alloc, fields.len())?;
    for field in fields {
        let at = field.item.name.span.start;
        let name = introduce_mark(names, scope, field.item.name.name, at)?;
        let tref = checked_type(&field.item.type_, scope, false, at)?;
        push_param(&mut params, scope.alloc, name, tref, &field.comments)?;
    }
    Ok(params)
}

/// The results of a function. The type of each is checked before its name is taken in, behind the names
/// of the parameters.
#[tactic(auto, using(crate::proofs::Params::result_rules))]
pub fn checked_results(
    fields: &[Documented<'_, FieldSyntax<'_>>],
    scope: &Scope<'_>,
    names: &mut Marks,
) -> Result<Params, CheckError>
    ensures ok { OnOk result (first_fault (result_checks (here_of scope.now) names.old (fields_view fields.now)) ≡ None) }
    ensures tree { IfOk result (AreParams scope.now fields.now) }
    ensures fault { IfErr result (λ e. Blames e
        (first_fault (result_checks (here_of scope.now) names.old (fields_view fields.now)))) }
{
    let mut results: Params = with_room(scope.alloc, fields.len())?;
    for field in fields {
        let at = field.item.name.span.start;
        let tref = checked_type(&field.item.type_, scope, false, at)?;
        let name = introduce_mark(names, scope, field.item.name.name, at)?;
        push_param(&mut results, scope.alloc, name, tref, &field.comments)?;
    }
    Ok(results)
}

fn func_name(
    func: &InterfaceFuncSyntax<'_>,
    scope: &Scope<'_>,
    taken: &mut Marks,
) -> Result<Id, CheckError>
    ensures ok { OnOk result (new_mark (here_of scope.now) taken.old func.now.export func.now.export_loc.start ≡ None) }
    ensures id { IfOk result (λ id. id ≡ func.now.export) }
    ensures kept { FindsOnOk result taken.new (with_export func.now taken.old) }
    ensures fault { IfErr result
        (λ e. Blames e (new_mark (here_of scope.now) taken.old func.now.export func.now.export_loc.start)) }
{
    introduce_mark(taken, scope, func.export.as_str(), func.export_loc.start)
}

fn func_params(
    func: &InterfaceFuncSyntax<'_>,
    scope: &Scope<'_>,
    own: &mut Marks,
) -> Result<Params, CheckError>
    requires { own.old ≡ [] }
    ensures ok { OnOk result (first_fault (field_checks (here_of scope.now) [] (fields_view func.now.params)) ≡ None) }
    ensures tree { IfOk result (AreParams scope.now func.now.params) }
    ensures kept { OnOk result ((q : _) → found own.new q ≡ found (fields_scope [] (fields_view func.now.params)) q) }
    ensures fault { IfErr result
        (λ e. Blames e (first_fault (field_checks (here_of scope.now) [] (fields_view func.now.params)))) }
{
    checked_params(func.params.as_slice(), scope, own)
}

fn func_results(
    func: &InterfaceFuncSyntax<'_>,
    scope: &Scope<'_>,
    own: &mut Marks,
) -> Result<Params, CheckError>
    ensures ok { OnOk result
        (first_fault (result_checks (here_of scope.now) own.old (fields_view func.now.results)) ≡ None) }
    ensures tree { IfOk result (AreParams scope.now func.now.results) }
    ensures fault { IfErr result (λ e. Blames e
        (first_fault (result_checks (here_of scope.now) own.old (fields_view func.now.results)))) }
{
    checked_results(func.results.as_slice(), scope, own)
}

/// What stands in a function.
#[derive(Drop)]
struct Inside {
    params: Params,
    results: Params,
}

/// Takes the steps in which an ABI looks at the results.
fn take_steps(scope: &Scope<'_>, results: &Params) -> Result<(), OutOfMemory> {
    match results.as_slice().first() {
        Some(result) => scope.steps.take_result(&result.tref),
        None => Ok(()),
    }
}

/// The parameters and the results of a function, where its ABI permits these.
#[tactic(auto, using(crate::proofs::Funcs::inner_rules))]
fn func_inside(func: &InterfaceFuncSyntax<'_>, scope: &Scope<'_>) -> Result<Inside, CheckError>
    ensures ok { OnOk result (first_fault (checks_inside (here_of scope.now) func.now) ≡ None) }
    ensures params { IfOk result (λ made. AreParams scope.now func.now.params made.params) }
    ensures results { IfOk result (λ made. AreParams scope.now func.now.results made.results) }
    ensures fault { IfErr result (λ e. Blames e (first_fault (checks_inside (here_of scope.now) func.now))) }
{
    let mut own = Marks::new(scope.alloc);
    let params = func_params(func, scope, &mut own)?;
    let results = func_results(func, scope, &mut own)?;
    take_steps(scope, &results)?;
    match abi_of(func.stored).validate(&params, &results) {
        Ok(()) => Ok(Inside { params, results }),
        Err(reason) => Err(abi_fault(scope, reason, func.export_loc.start)),
    }
}

/// A function, whose name is taken in before what stands in it is checked.
#[tactic(auto, using(crate::proofs::Funcs::func_rules))]
pub fn checked_func(
    func: &InterfaceFuncSyntax<'_>,
    scope: &Scope<'_>,
    taken: &mut Marks,
    comments: &CommentSyntax<'_>,
) -> Result<InterfaceFunc, CheckError>
    ensures ok { OnOk result (first_fault (checks_func (here_of scope.now) taken.old func.now) ≡ None) }
    ensures tree { IfOk result (λ f. func_tree f ≡ makes_func (here_of scope.now) (comments_view comments.now) func.now) }
    ensures fault { IfErr result (λ e. Blames e (first_fault (checks_func (here_of scope.now) taken.old func.now))) }
    ensures kept { FindsOnOk result taken.new (with_export func.now taken.old) }
{
    let name = func_name(func, scope, taken)?;
    let inside = func_inside(func, scope)?;
    let docs = comments.docs(scope.alloc)?;
    Ok(InterfaceFunc {
        abi: abi_of(func.stored),
        name,
        params: inside.params,
        results: inside.results,
        noreturn: func.noreturn,
        docs,
    })
}
