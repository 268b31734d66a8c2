//! The window of a device, which distinguishes stale stamps from fresh ones.
ghost use Rattle.std.specs.Prelude.{◌≡◌, replicate};
ghost use Rattle.replay_window.specs.Seen as spec;
ghost use Rattle.replay_window.specs.Seen.{Seen};
ghost use Rattle.replay_window.specs.Stands.{WindowStands, number_took, window_took, window_with};
ghost use Rattle.replay_window.specs.declared.window.Took.TheVariants.{Fresh as FreshOne};

use plan_base::Stamp;

/// The number of places of a window.
const WINDOW_PLACES: u64 = 1024;

/// What a window takes a stamp as.
#[derive(Clone, Copy, PartialEq, Eq)]
pub enum Took {
    /// It wasn't taken before, and is taken now.
    Fresh,
    /// It was taken before.
    Repeated,
    /// It is too far below the greatest number taken, or of a sender that has begun anew since.
    TooOld,
}

/// Which numbers a device has taken from the sender at its other end, since that sender began. A number's
/// place is its rest by 1,024, and a place keeps how often 1,024 goes into the last number there, and one
/// more, or 0 where there is none.
#[derive(Drop)]
pub struct Window {
    boot: u64,
    top: u64,
    turns: [u64; 1024],
}

impl Window {
    /// A window that has taken nothing. Takes no memory.
    pub fn new() -> Window
        ensures { WindowStands spec.nothing_seen result }
    {
        Window {
            boot: 0,
            top: 0,
            turns: [0; 1024],
        }
    }

    /// What a number of the last sender would be taken as.
    #[tactic(auto, unfolding(crate::specs::Stands::number_took))]
    fn judge_number(&self, link: u64) -> Took
        ensures { result ≡ number_took self.now link }
    {
        if self.top >= WINDOW_PLACES && link <= self.top - WINDOW_PLACES {
            return Took::TooOld;
        }
        if self.turns[(link % WINDOW_PLACES) as usize] == link / WINDOW_PLACES + 1 {
            return Took::Repeated;
        }
        Took::Fresh
    }

    /// What a stamp would be taken as.
    #[tactic(auto, unfolding(crate::specs::Stands::window_took))]
    fn judge_stamp(&self, s: Stamp) -> Took
        ensures { result ≡ window_took self.now s }
    {
        if s.boot < self.boot {
            return Took::TooOld;
        }
        if s.boot == self.boot {
            return self.judge_number(s.link);
        }
        Took::Fresh
    }

    /// What a stamp would be taken as, by all numbers taken. Takes no memory.
    pub fn judge(&self, s: Stamp) -> Took
        ensures { (seen : Seen) → WindowStands seen self.now → result ≡ spec.took seen s }
    {
        self.judge_stamp(s)
    }

    /// Takes a number of the last sender.
    #[tactic(auto, unfolding(crate::specs::Stands::window_with))]
    fn note(&mut self, link: u64)
        ensures { self.new ≡ window_with self.old link }
    {
        self.turns[(link % WINDOW_PLACES) as usize] = link / WINDOW_PLACES + 1;
        if link > self.top {
            self.top = link;
        }
    }

    /// Forgets all numbers, since the sender began anew. (In its own function, since one with so large a
    /// local value is slow to enter.)
    fn forget(&mut self, boot: u64)
        ensures boot { self.new.boot ≡ boot }
        ensures top { self.new.top ≡ 0 }
        ensures turns { self.new.turns ≡ replicate 1024 0 }
    {
        self.boot = boot;
        self.top = 0;
        self.turns = [0; 1024];
    }

    /// Takes a stamp that is fresh, by all numbers taken. Takes no memory.
    #[tactic(auto, unfolding(crate::specs::Seen::seen_with))]
    pub fn keep(&mut self, s: Stamp)
        ensures { (seen : Seen) → WindowStands seen self.old → spec.took seen s ≡ FreshOne
            → WindowStands (spec.seen_with seen s) self.new }
    {
        if s.boot != self.boot {
            self.forget(s.boot);
        }
        self.note(s.link);
    }

    /// Takes a stamp where it is fresh, and answers what it took it as, by all numbers taken. Takes no memory.
    pub fn take(&mut self, s: Stamp) -> Took
        ensures took { (seen : Seen) → WindowStands seen self.old → result ≡ spec.took seen s }
        ensures after { (seen : Seen) → WindowStands seen self.old
            → WindowStands (spec.seen_after seen s) self.new }
    {
        let took = self.judge(s);
        match took {
            Took::Fresh => self.keep(s),
            _ => {}
        }
        took
    }
}
