//! Laws of spellings: each tree has one, and none begins another's.
ghost use Rattle.std.specs.Prelude.{◌≡◌, ◌+◌, ◌++◌, ◌⊎◌, List, ℕ, length};
ghost use Rattle.wire_bytes.specs.Fields.{Front, IsBytes};
ghost use Rattle.plan_base.specs.declared.tree.Ty.{Ty};
ghost use Rattle.plan_base.specs.declared.tree.Value.{Value};
ghost use Rattle.plan_base.specs.declared.tree.Chunk.{Chunk};
ghost use Rattle.plan_base.specs.declared.tree.Program.{Program};
ghost use Rattle.chunk_codec_spec.specs.declared.fault.SpellFault.{SpellFault};
ghost use Rattle.chunk_codec_spec.specs.Items.{a_type, a_value, a_chunk, a_program};
ghost use Rattle.chunk_codec_spec.specs.Programs.{program_part};
ghost use Rattle.chunk_codec_spec.specs.Spelling.{Spells, SpelledAt, FirstFaultAt, a_whole_type, a_whole_value, a_whole_chunk};

/// Laws of the spelling of a type: no type has two spellings and no spelling begins another's; it stands in front of
/// whatever follows; at most one fault is the first; a spelling stands at a place or
/// there is a first fault, and never both.
pub fn type_laws()
    ensures one_spelling { (a b x y : List ℕ) (v w : Ty) → Spells a_whole_type a v → Spells
        a_whole_type b w → a ++ x ≡ b ++ y → (a ≡ b) × (v ≡ w) × (x ≡ y) }
    ensures again { (at : ℕ) (a more : List ℕ) (x : Ty) → Spells a_whole_type a x → SpelledAt
        a_whole_type (record { at = at; rest = a ++ more }) x
        (record { at = at + length a; rest = more }) }
    ensures one_fault { (f : Front) (d e : SpellFault) → FirstFaultAt d (a_type 8) f → FirstFaultAt
        e (a_type 8) f → d ≡ e }
    ensures either { (f : Front) → IsBytes f.rest → ((x : Ty) × (g : Front) × SpelledAt a_whole_type
        f x g) ⊎ ((e : SpellFault) × FirstFaultAt e (a_type 8) f) }
    ensures never_both { (f g : Front) (x : Ty) (e : SpellFault) → SpelledAt a_whole_type f x g →
        FirstFaultAt e (a_type 8) f → ⊥ }
{}

/// Laws of the spelling of a value: no value has two spellings and no spelling begins another's; it stands in front of
/// whatever follows; at most one fault is the first; a spelling stands at a place or
/// there is a first fault, and never both.
pub fn value_laws()
    ensures one_spelling { (a b x y : List ℕ) (v w : Value) → Spells a_whole_value a v → Spells
        a_whole_value b w → a ++ x ≡ b ++ y → (a ≡ b) × (v ≡ w) × (x ≡ y) }
    ensures again { (at : ℕ) (a more : List ℕ) (x : Value) → Spells a_whole_value a x → SpelledAt
        a_whole_value (record { at = at; rest = a ++ more }) x
        (record { at = at + length a; rest = more }) }
    ensures one_fault { (f : Front) (d e : SpellFault) → FirstFaultAt d (a_value 4 8) f →
        FirstFaultAt e (a_value 4 8) f → d ≡ e }
    ensures either { (f : Front) → IsBytes f.rest → ((x : Value) × (g : Front) × SpelledAt
        a_whole_value f x g) ⊎ ((e : SpellFault) × FirstFaultAt e (a_value 4 8) f) }
    ensures never_both { (f g : Front) (x : Value) (e : SpellFault) → SpelledAt a_whole_value f x g
        → FirstFaultAt e (a_value 4 8) f → ⊥ }
{}

/// Laws of the spelling of a chunk: no chunk has two spellings and no spelling begins another's; it stands in front of
/// whatever follows; at most one fault is the first; a spelling stands at a place or
/// there is a first fault, and never both.
pub fn chunk_laws()
    ensures one_spelling { (a b x y : List ℕ) (v w : Chunk) → Spells a_whole_chunk a v → Spells
        a_whole_chunk b w → a ++ x ≡ b ++ y → (a ≡ b) × (v ≡ w) × (x ≡ y) }
    ensures again { (at : ℕ) (a more : List ℕ) (x : Chunk) → Spells a_whole_chunk a x → SpelledAt
        a_whole_chunk (record { at = at; rest = a ++ more }) x
        (record { at = at + length a; rest = more }) }
    ensures one_fault { (f : Front) (d e : SpellFault) → FirstFaultAt d (a_chunk 3) f → FirstFaultAt
        e (a_chunk 3) f → d ≡ e }
    ensures either { (f : Front) → IsBytes f.rest → ((x : Chunk) × (g : Front) × SpelledAt
        a_whole_chunk f x g) ⊎ ((e : SpellFault) × FirstFaultAt e (a_chunk 3) f) }
    ensures never_both { (f g : Front) (x : Chunk) (e : SpellFault) → SpelledAt a_whole_chunk f x g
        → FirstFaultAt e (a_chunk 3) f → ⊥ }
{}

/// Laws of the spelling of a program: no program has two spellings and no spelling begins another's; it stands in front of
/// whatever follows; at most one fault is the first; a spelling stands at a place or
/// there is a first fault, and never both.
pub fn program_laws()
    ensures one_spelling { (a b x y : List ℕ) (v w : Program) → Spells program_part a v → Spells
        program_part b w → a ++ x ≡ b ++ y → (a ≡ b) × (v ≡ w) × (x ≡ y) }
    ensures again { (at : ℕ) (a more : List ℕ) (x : Program) → Spells program_part a x → SpelledAt
        program_part (record { at = at; rest = a ++ more }) x
        (record { at = at + length a; rest = more }) }
    ensures one_fault { (f : Front) (d e : SpellFault) → FirstFaultAt d (a_program) f → FirstFaultAt
        e (a_program) f → d ≡ e }
    ensures either { (f : Front) → IsBytes f.rest → ((x : Program) × (g : Front) × SpelledAt
        program_part f x g) ⊎ ((e : SpellFault) × FirstFaultAt e (a_program) f) }
    ensures never_both { (f g : Front) (x : Program) (e : SpellFault) → SpelledAt program_part f x g
        → FirstFaultAt e (a_program) f → ⊥ }
{}
