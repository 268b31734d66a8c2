//! Laws of what is refused inside strings, chars, blobs and comments, and where, by written forms of each.
//!
//! Each law stands on a function without code, so that contracts of other crates can name it.

ghost use Rattle.std.specs.Prelude.{◌≡◌, ◌≢◌, ◌↔◌, ◌+◌, ℕ, List, ◌∷◌, Some, None, Ok, Err};
ghost use Rattle.plan_lexer.specs.Scanning.{move_at, Refuses};
ghost use Rattle.plan_lexer.specs.declared.token.TokenKind.{TokenKind};
ghost use Rattle.plan_lexer.specs.declared.fault.LexFault.{LexFault};
ghost use Rattle.plan_lexer.specs.declared.fault.LexFault.TheVariants as fault;
ghost use Rattle.plan_parser_laws.specs.Faulty.{StringFault, CharFault, BlobFault};
ghost use Rattle.plan_parser_laws.specs.Comments.{EndsAt, Unclosed};
ghost use Rattle.plan_parser_laws.specs.Strays.{IsStray, StrayFault};

/// What a `"` begins is refused exactly where the line ends inside the string, at the quote, or where no item stands.
pub fn strings_are_refused()
    ensures { (at : ℕ) (text : List ℕ) (e : LexFault) → (move_at at (34 ∷ text) ≡ Err e) ↔
        StringFault e at (at + 1) text }
{}

/// What a `'` begins is refused exactly where no item with a closing quote follows, at the quote.
pub fn chars_are_refused()
    ensures { (at : ℕ) (text : List ℕ) (e : LexFault) → (move_at at (39 ∷ text) ≡ Err e) ↔
        CharFault e at text }
{}

/// What a `#"` begins is refused exactly where the line ends inside the blob, at its start, or where no digit stands.
pub fn blobs_are_refused()
    ensures { (at : ℕ) (text : List ℕ) (e : LexFault) → (move_at at (35 ∷ 34 ∷ text) ≡ Err e) ↔
        BlobFault e at (at + 2) text }
{}

/// A `(*` begins a comment and never a token: it is passed up to its own `*)`, with the comments inside it, or refused
/// at the `(*` where there is none.
pub fn comments_are_passed()
    ensures never { (at : ℕ) (text : List ℕ) (k : TokenKind) (next : ℕ) → move_at at
        (40 ∷ 42 ∷ text) ≡ Ok (Some k, next) → ⊥ }
    ensures passed { (at : ℕ) (text : List ℕ) (next : ℕ) →
        (move_at at (40 ∷ 42 ∷ text) ≡ Ok (None, next)) ↔ EndsAt at next (40 ∷ 42 ∷ text) }
    ensures refused { (at : ℕ) (text : List ℕ) (e : LexFault) →
        (move_at at (40 ∷ 42 ∷ text) ≡ Err e) ↔ Unclosed e at (40 ∷ 42 ∷ text) }
{}

/// What begins with no blank, comment or quote is refused exactly where it begins with a word of more than 32 bytes, with a
/// number out of range, or with nothing that has the form of a token, at its first byte.
pub fn strays_are_refused()
    ensures { (at : ℕ) (text : List ℕ) (e : LexFault) → IsStray text → (move_at at text ≡ Err e) ↔
        StrayFault e at text }
{}

/// No first refusal of tokens is `NoMemory`.
pub fn token_refusals_hold_no_memory()
    ensures { (e : LexFault) (at : ℕ) (text : List ℕ) → Refuses e at text → e ≢ fault.NoMemory }
{}
