//! What holds of every table, as functions that do nothing: each contract is a theorem.

ghost use Rattle.std.specs.Prelude.{◌≡◌, ◌⊎◌, ◌≤◌, ℕ, List, [], ◌∷◌};
ghost use Rattle.witx_grammar.specs.{Grammar.{Derives, Rewrite, grammar}, Prediction.{IsPredictive}};
ghost use Rattle.witx_grammar.specs.Faults.{HasDerivation, HasTokenFault, IsTokenFault, IsSameFault};
ghost use Rattle.witx_grammar.specs.Search.{IsSearched, search_fault};
ghost use Rattle.witx_grammar.specs.declared.table.Symbol.TheVariants.{Nonterminal};
ghost use Rattle.witx_grammar.specs.{declared.table.Step.{Step}, declared.table.Table.{Table}};
ghost use Rattle.witx_grammar.specs.declared.table.TheConstants.{DEPTH};

use crate::kind::Kind;

/// A list of tokens has at most one derivation from a nonterminal.
pub fn at_most_one_derivation<T: Kind, N: Kind, P: Kind>()
    ensures { (t : Table T N P) (f : N) (ms ns : List (Step P)) (ts : List T) → IsPredictive T.eq N.eq P.eq t
        → Derives (grammar t) ms (Nonterminal f ∷ []) ts → Derives (grammar t) ns (Nonterminal f ∷ []) ts → ms ≡ ns }
{}

/// A list of tokens has at most one fault: one place, and one set of kinds that can stand there.
pub fn at_most_one_fault<T: Kind, N: Kind, P: Kind>()
    ensures { (g : List (Rewrite T N P)) (f : N) (at place : ℕ) (expected kinds : List T) (ts : List T)
        → IsTokenFault g f ts at expected → IsTokenFault g f ts place kinds → IsSameFault at expected place kinds }
{}

/// A list of tokens has a derivation or a fault.
pub fn derivation_or_fault<T: Kind, N: Kind, P: Kind>()
    ensures { (t : Table T N P) (f : N) (ts : List T) → IsPredictive T.eq N.eq P.eq t
        → HasDerivation (grammar t) f ts ⊎ HasTokenFault (grammar t) f ts }
{}

/// No list of tokens has a derivation and a fault.
pub fn no_fault_where_derived<T: Kind, N: Kind, P: Kind>()
    ensures { (g : List (Rewrite T N P)) (f : N) (ts : List T) → HasDerivation g f ts → HasTokenFault g f ts → ⊥ }
{}

/// The fault that is computed is the fault, whatever larger bound it is computed with: a larger
/// bound changes nothing.
pub fn fault_at_every_depth<T: Kind, N: Kind, P: Kind>()
    ensures { (t : Table T N P) (depth : ℕ) (f : N) (ts : List T) → IsPredictive T.eq N.eq P.eq t → DEPTH ≤ depth
        → IsSearched (grammar t) f ts (search_fault T.eq N.eq (grammar t) depth ((Nonterminal f ∷ []) ∷ []) 0 ts) }
{}
