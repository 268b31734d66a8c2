//! Laws of files of lines, for each format. A format is what its reader says of it.

ghost use Rattle.std.specs.Prelude.{◌≡◌, ◌<◌, ◌+◌, ◌++◌, ◌∷◌, ℕ, List, length, take, Ok, Err};
ghost use Rattle.line_reader.specs.declared.fault.LineReason.{LineReason as Reason};
ghost use Rattle.line_reader.specs.declared.fault.LineFault.{LineFault as Fault};
ghost use Rattle.line_reader.specs.declared.fault.LineFault.TheVariants as faults;
ghost use Rattle.line_reader.specs.Lines.{lines};
ghost use Rattle.line_reader.specs.Files.{file_of};
ghost use Rattle.line_reader.specs.Inside.{after_lines, AreInside, Placed, RefusesRead};
ghost use Rattle.line_reader.specs.Counting.{moved_by, CountsOnly};

use crate::files::LineFile;

/// Every line before a refused one is inside the format, where it refuses lines that were read.
#[tactic(auto, using(crate::proofs::LineLaws::before_inside))]
pub fn lines_before_a_refusal_are_inside<F: LineFile>()
    ensures { (begin : F) (bytes : List ℕ) (n k : ℕ) (r : Reason) → RefusesRead F.format begin →
        file_of F.format begin bytes ≡ Err (faults.Line n r) → k < n → AreInside F.format begin
        (take k (lines bytes)) }
{}

/// A first refusal stands at one of the lines or behind the last, and is never `NoMemory`, where the format refuses lines
/// that were read.
#[tactic(auto, using(crate::proofs::LineLaws::refused_placed))]
pub fn refusals_stand_at_lines<F: LineFile>()
    ensures { (begin : F) (bytes : List ℕ) (e : Fault) → RefusesRead F.format begin → file_of
        F.format begin bytes ≡ Err e → Placed (1 + length (lines bytes)) e }
{}

/// A line that leaves what was read as it is only changes the numbers of the lines behind it, where the format only counts
/// its lines.
#[tactic(auto, using(crate::proofs::CountLaws::line_counts))]
pub fn skipped_lines_only_count<F: LineFile>()
    ensures { (shift : ℕ → F → F) (begin s : F) (bytes more : List ℕ) (before after : List (List ℕ))
        (line : List ℕ) → CountsOnly F.format shift → after_lines F.format 1 before begin ≡ Ok s →
        F.format.step (1 + length before) line s ≡ Ok s → shift (length before) s ≡ s → lines bytes
        ≡ before ++ after → lines more ≡ before ++ line ∷ after → file_of F.format begin more ≡
        moved_by (length before) (λ x. x) (file_of F.format begin bytes) }
{}
