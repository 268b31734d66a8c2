//! Laws of the format of schedules, on its definition alone.
//!
//! Each law stands on a function without code, so that contracts of other crates can name it.

ghost use Rattle.std.specs.Prelude.{◌≡◌, ◌<◌, ◌++◌, ◌∷◌, ℕ, List, length, take, true};
ghost use Rattle.line_reader.specs.Inside.{AreInside, RefusesRead};
ghost use Rattle.line_reader.specs.Counting.{moved_by, CountsOnly};
ghost use Rattle.line_reader.specs.declared.fault.LineReason.{LineReason};
ghost use Rattle.line_reader.specs.Lines.{lines};
ghost use Rattle.line_reader.specs.Files.{is_skipped};
ghost use Rattle.schedule_text.specs.Schedules.{schedule_format, nothing_read, schedule_of};
ghost use Rattle.plan_base.specs.declared.tree.Chunk.{Chunk};
ghost use Rattle.network_config.specs.declared.schedule.Schedule.{Schedule};
ghost use Rattle.schedule_text.specs.Answers.{Says, IsRefused};
ghost use Rattle.schedule_text.specs.Lines.{EndOutside, later_file};
ghost use Rattle.schedule_text.specs.Written.{NamedText, Written, schedule_text, IsSchedule};

/// Every line before a refused one is inside the format.
#[tactic(auto, using(crate::proofs::AnswerLaws::refuses, crate::proofs::MoveLaws::before_inside))]
pub fn lines_before_a_refusal_are_inside()
    ensures refuses { RefusesRead schedule_format nothing_read }
    ensures inside { (bytes : List ℕ) (n k : ℕ) (r : LineReason) → IsRefused bytes n r → k < n →
        AreInside schedule_format nothing_read (take k (lines bytes)) }
{}

/// An empty line or a comment, put behind the header and outside of programs, changes nothing but the numbers of the
/// lines behind it.
#[tactic(auto, using(crate::proofs::MoveLaws::counts, crate::proofs::MoveLaws::skipped_moves))]
pub fn skipped_lines_only_count()
    ensures counts { CountsOnly schedule_format later_file }
    ensures skipped { (bytes more : List ℕ) (before after : List (List ℕ)) (line : List ℕ) → lines
        bytes ≡ before ++ after → lines more ≡ before ++ line ∷ after → is_skipped line ≡ true →
        EndOutside before → schedule_of more ≡ moved_by (length before) (λ s. s)
        (schedule_of bytes) }
{}

/// A schedule within its limits that is written, with its programs and arguments as texts that say them, says itself.
#[tactic(auto, using(crate::proofs::WholeRead::written_says))]
pub fn written_schedules_are_read()
    ensures { (programs : List NamedText) (by : Chunk → Written) (s : Schedule) → IsSchedule
        programs by s → Says (schedule_text programs by s) s }
{}
