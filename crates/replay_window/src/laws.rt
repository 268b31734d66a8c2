//! A law: a stamp that was taken is never fresh again.
ghost use Rattle.std.specs.Prelude.{◌≡◌, false};
ghost use Rattle.replay_window.specs.Seen.{Seen, took, seen_after, is_fresh};
ghost use Rattle.plan_base.specs.declared.stamp.Stamp.{Stamp};

/// A stamp that was taken, and one that wasn't fresh, is never fresh again, whatever is taken later.
pub fn stamps_stay_taken()
    ensures taken { (seen : Seen) (s : Stamp) → is_fresh (took (seen_after seen s) s) ≡ false }
    ensures stays { (seen : Seen) (s t : Stamp) → is_fresh (took seen s) ≡ false
        → is_fresh (took (seen_after seen t) s) ≡ false }
{}
