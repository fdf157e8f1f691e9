//! The laws that let a reader go from what a validator keeps to the positions of declarations.

ghost use Rattle.std.specs.Prelude.{◌≡◌, ◌∷◌};
ghost use Rattle.witx_scope.specs.{Senses.{kept_sense}, Positions.{denotes}, Declarations.{nothing_before}};
ghost use Rattle.witx_scope.specs.Kept.{Keeps, KeepsNames};
ghost use Rattle.witx_check.specs.Validators.{nothing_kept};

/// Inside the next declaration each name denotes, by what a validator keeps, what the positions of
/// the declarations so far say.
#[tactic(auto, using(crate::proofs::ByPosition::position_rules))]
pub fn names_by_position()
    ensures { (names : _) (es : _) (past : _) (own : _) (p : _) → KeepsNames names es past
        → kept_sense ((own, p) ∷ names) es ≡ denotes past own }
{}

/// A new validator keeps what no declaration leaves.
#[tactic(auto, using(crate::proofs::ByPosition::start_rules))]
pub fn nothing_by_position()
    ensures { Keeps nothing_kept nothing_before }
{}
