//! Laws: what came in parts is held whole, with exactly that message; and the text of a part's program is that program.
ghost use Rattle.std.specs.Prelude.{◌≡◌, ◌<◌, ◌⊎◌, ℕ, ℤ, List, [], length, Some, None, false, Ok};
ghost use Rattle.service_api.specs.declared.answer.Note.{Note};
ghost use Rattle.frag_chunks.specs.declared.gather.Held.TheVariants as held;
ghost use Rattle.program_text.specs.Texts.{program_of};
ghost use Rattle.frag_chunks.specs.Parts.{parts_in, part_text};
ghost use Rattle.frag_chunks.specs.Programs.{part_program};
ghost use Rattle.frag_chunks.specs.Gathers.{gathered_entries, holding_of};
ghost use Rattle.frag_chunks.specs.Messages.{OfMessage, AllCame, NoneCame, was_given, IsKept, IsFull, held_after, missing_of};

/// A key whose notes are parts of one message is held whole, with exactly that message, once each part came, and is
/// missing some until then; it isn't kept only where no note of it came, or where 64 other keys are kept.
pub fn messages_are_gathered()
    ensures whole { (port : ℕ) (k : ℤ) (bytes : List ℕ) (notes : List Note)
        → OfMessage port k bytes notes → IsKept port k notes → AllCame port k bytes notes
        → held_after port k notes ≡ Some (held.Whole k bytes) }
    ensures missing { (port : ℕ) (k : ℤ) (bytes : List ℕ) (notes : List Note)
        → OfMessage port k bytes notes → IsKept port k notes
        → (i : ℕ) → i < parts_in (length bytes) → was_given port k notes i ≡ false
        → held_after port k notes ≡ Some (missing_of port k bytes notes) }
    ensures room { (port : ℕ) (k : ℤ) (bytes : List ℕ) (notes : List Note)
        → OfMessage port k bytes notes → holding_of k (gathered_entries port notes []) ≡ None
        → IsFull port notes ⊎ NoneCame port k notes }
{}

/// The text of a part's program is that program.
#[tactic(auto, using(crate::proofs::PartText::part_says))]
pub fn part_is_read()
    ensures { program_of part_text ≡ Ok part_program }
{}
