//! A law: a schedule's text has one answer.
ghost use Rattle.std.specs.Prelude.{◌≡◌, ◌⊎◌, ℕ, List};
ghost use Rattle.line_reader.specs.declared.fault.LineReason.{LineReason};
ghost use Rattle.network_config.specs.declared.schedule.Schedule.{Schedule};
ghost use Rattle.schedule_text.specs.Answers.{Says, IsRefused, Accepted, Refused};

/// Each file says a schedule or has a first line outside the format, which is one of its lines or the one
/// behind its last; never both, and never two of a kind.
#[tactic(auto, using(crate::proofs::AnswerLaws::has_answer, crate::proofs::AnswerLaws::not_both, crate::proofs::AnswerLaws::one_schedule, crate::proofs::AnswerLaws::one_refusal))]
pub fn one_answer()
    ensures either { (bytes : List ℕ) → Accepted bytes ⊎ Refused bytes }
    ensures apart { (bytes : List ℕ) (s : Schedule) (n : ℕ) (r : LineReason) → Says bytes s →
        IsRefused bytes n r → ⊥ }
    ensures schedule { (bytes : List ℕ) (s t : Schedule) → Says bytes s → Says bytes t → s ≡ t }
    ensures refusal { (bytes : List ℕ) (n m : ℕ) (r q : LineReason) → IsRefused bytes n r →
        IsRefused bytes m q → (n ≡ m) × (r ≡ q) }
{}
