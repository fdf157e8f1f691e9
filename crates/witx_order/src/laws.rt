//! What holds of every reading order, as functions that do nothing: each contract is a theorem.

ghost use Rattle.witx_order.specs.Laws.{DeclaredWhereRead, FineMeans, FrontForm, FrontVerdict, NextMark, OneFinalFront, OneVerdict, OneWalk, WalkForm};

/// There is at most one walk.
pub fn one_walk<F>()
    ensures { OneWalk F }
{}

/// There is exactly one final front, and it has one verdict.
pub fn one_final_front<F>()
    ensures { OneFinalFront F }
{}

/// There is exactly one verdict.
pub fn one_verdict<F>()
    ensures { OneVerdict F }
{}

/// The verdict is that of the final front.
pub fn front_verdict<F>()
    ensures { FrontVerdict F }
{}

/// The verdict is fine exactly where the handed paths mean these declarations.
pub fn fine_means<F>()
    ensures { FineMeans F }
{}

/// The step by step walks are exactly those by their groups.
pub fn walk_form<F>()
    ensures { WalkForm F }
{}

/// The step by step fronts are exactly those by their groups.
pub fn front_form<F>()
    ensures { FrontForm F }
{}

/// The next mark of where a front has come to is the one mark with which the list is a front again.
pub fn next_mark<F>()
    ensures { NextMark F }
{}

/// Each declaration of a walk is an item of the text that its path has.
pub fn declared_where_read<F>()
    ensures { DeclaredWhereRead F }
{}
