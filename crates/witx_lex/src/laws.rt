//! What holds of every text, whatever reads it. Each law is the contract of a function that does
//! nothing: call it to have the law.

ghost use Rattle.std.specs.Prelude.{◌≡◌, ◌⊎◌, ℕ, List, All};
ghost use Rattle.witx_lex.specs.{declared.error.LexKind.{LexKind}, Faults.{IsFault, IsFaultAt}};
ghost use Rattle.witx_lex.specs.{Meaning.{HasTokens}, Pieces.{ArePieces, Piece, Stands}, Slices.{StandsAt}};
ghost use Rattle.witx_lex.specs.Tokens.{Lexed};

/// A text has at most one list of pieces.
pub fn pieces_are_unique()
    ensures { (text : List ℕ) (ps qs : List Piece)
        → ArePieces ps text → ArePieces qs text → ps ≡ qs }
{}

/// A text has at most one list of tokens.
pub fn tokens_are_unique()
    ensures { (text : List ℕ) (ts us : List Lexed)
        → HasTokens text ts → HasTokens text us → ts ≡ us }
{}

/// Where a fault is told no piece can stand.
pub fn no_piece_at_a_fault()
    ensures { (n : ℕ) (text : List ℕ) (kind : LexKind) (k : ℕ) (p : Piece) (rest : List ℕ)
        → IsFaultAt n text kind k → Stands n p text rest → ⊥ }
{}

/// A text with pieces has no fault.
pub fn pieces_exclude_a_fault()
    ensures { (text : List ℕ) (ps : List Piece) (kind : LexKind) (at : ℕ)
        → ArePieces ps text → IsFault text kind at → ⊥ }
{}

/// A text has at most one fault: one kind, at one place.
pub fn a_fault_is_unique()
    ensures { (text : List ℕ) (kind other : LexKind) (at place : ℕ)
        → IsFault text kind at → IsFault text other place → (kind ≡ other) × (at ≡ place) }
{}

/// A text has pieces or a fault.
pub fn a_text_has_pieces_or_a_fault()
    ensures { (text : List ℕ)
        → ((ps : List Piece) × ArePieces ps text)
        ⊎ ((kind : LexKind) × (at : ℕ) × IsFault text kind at) }
{}

/// The bytes of each token are those of the text at its span, without the `$` of an identifier and
/// the `@` of an annotation; those of a string are decoded.
pub fn tokens_are_slices()
    ensures { (text : List ℕ) (tokens : List Lexed)
        → HasTokens text tokens → All (StandsAt text) tokens }
{}
