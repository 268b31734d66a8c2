//! Laws of tokens: what spells one is read as it, and a text has one answer.
ghost use Rattle.std.specs.Prelude.{◌≡◌, ℕ, ℤ, ◌+◌, ◌<◌, ◌≤◌, ◌^◌, List, ◌++◌, length, get_or, Ok, Err, ◌⊎◌, FitsSigned};
ghost use Rattle.std.specs.Int.{w64};
ghost use Rattle.std.specs.Char.{IsScalar};
ghost use Rattle.std.specs.Str.{IsUtf8};
ghost use Rattle.plan_lexer.specs.Scanning.{token_at, Toks, Refuses, IsAnswered};
ghost use Rattle.plan_lexer.specs.TokenForms.{Spells, EndsBefore, HasForm, IsFront};
ghost use Rattle.plan_printer_spec.specs.Literals.{int_text, host_text, dev_text, part_text, char_text, string_text, blob_text};
ghost use Rattle.plan_lexer.specs.declared.fault.LexFault.{LexFault};
ghost use Rattle.plan_lexer.specs.declared.fault.LexFault.TheVariants as fault;
ghost use Rattle.plan_lexer.specs.declared.token.Token.{Token};
ghost use Rattle.plan_lexer.specs.declared.token.TokenKind.{TokenKind};
ghost use Rattle.plan_lexer.specs.declared.token.TokenKind.TheVariants as kind;

/// What spells a token is read as that token, where what follows isn't taken for more of it.
pub fn spelled_tokens()
    ensures { (at : ℕ) (k : TokenKind) (front rest : List ℕ) → Spells k front → EndsBefore k rest
        → token_at at (front ++ rest) ≡ Ok (k, at + length front) }
{}

/// The printed form of a number, host, device, part, char, string or blob spells that token.
pub fn printed_tokens()
    ensures int { (z : ℤ) → FitsSigned w64 z → Spells (kind.Int z) (int_text z) }
    ensures host { (n : ℕ) → n < 2 ^ 32 → Spells (kind.Host n) (host_text n) }
    ensures dev { (n : ℕ) → n < 2 ^ 32 → Spells (kind.Dev n) (dev_text n) }
    ensures part { (n : ℕ) → 1 ≤ n → n ≤ 8 → Spells (kind.Part n) (part_text n) }
    ensures char { (c : ℕ) → IsScalar c → Spells (kind.Char c) (char_text c) }
    ensures string { (bytes : List ℕ) → IsUtf8 bytes → Spells (kind.Str bytes) (string_text bytes) }
    ensures blob { (bytes : List ℕ) → ((i : ℕ) → get_or bytes i 0 < 256)
        → Spells (kind.Blob bytes) (blob_text bytes) }
{}

/// A token that is read is the longest prefix of the text that has the form of a token, and spells its kind.
///
/// A text that begins with the form of a token is refused only for the length of a word or the size of a number.
pub fn longest_tokens()
    ensures front { (at : ℕ) (text : List ℕ) (k : TokenKind) (next : ℕ)
        → token_at at text ≡ Ok (k, next) → IsFront text at k next }
    ensures longest { (at : ℕ) (text : List ℕ) (k : TokenKind) (next : ℕ)
        → token_at at text ≡ Ok (k, next)
        → (longer rest : List ℕ) → text ≡ longer ++ rest → HasForm longer
        → at + length longer ≤ next }
    ensures refused { (at : ℕ) (text : List ℕ) (e : LexFault) → token_at at text ≡ Err e
        → (front rest : List ℕ) → text ≡ front ++ rest → HasForm front
        → (e ≡ fault.LongName at) ⊎ (e ≡ fault.NumberTooLarge at) }
{}

/// A text has one list of tokens or one first refusal, and not both.
pub fn one_answer()
    ensures some { (at : ℕ) (text : List ℕ) → IsAnswered at text }
    ensures tokens { (at : ℕ) (text : List ℕ) (ts us : List Token) → Toks at text ts
        → Toks at text us → ts ≡ us }
    ensures refusal { (d e : LexFault) (at : ℕ) (text : List ℕ) → Refuses d at text
        → Refuses e at text → d ≡ e }
    ensures apart { (e : LexFault) (at : ℕ) (text : List ℕ) (ts : List Token) → Toks at text ts
        → Refuses e at text → ⊥ }
{}
