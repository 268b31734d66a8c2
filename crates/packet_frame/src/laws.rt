//! Laws of frames: each has one spelling, and bytes have one answer.
ghost use Rattle.std.specs.Prelude.{◌≡◌, ◌++◌, ◌⊎◌, List, ℕ, Ok, Err};
ghost use Rattle.wire_bytes.specs.Fields.{IsBytes};
ghost use Rattle.packet_frame.specs.Frames.{SpellsFrame, SpellingFault};
ghost use Rattle.packet_frame.specs.Stamped.{SpellsStamped, StampedFault, AcceptsBy, StampedFirst};
ghost use Rattle.packet_frame.specs.declared.frame.PlainStamped.{PlainStamped};
ghost use Rattle.packet_frame.specs.declared.fault.FrameFault.{FrameFault};
ghost use Rattle.packet_frame.specs.declared.frame.PlainFrame.{PlainFrame};
ghost use Rattle.packet_frame.specs.Typed.{Accepts, FrameFirst};
ghost use Rattle.packet_frame.specs.Decoding.{frame_of, read_by};
ghost use Rattle.plan_base.specs.declared.stamp.Version.{Version};
ghost use Rattle.plan_base.specs.declared.stamp.Version.TheVariants.{Two};

/// Laws of the spelling of a frame: no frame has two spellings and no spelling begins another's; at most one fault is
/// the first; bytes spell a frame or have a first fault, and never both.
pub fn frame_laws()
    ensures one_spelling { (a b x y : List ℕ) (v w : PlainFrame) → SpellsFrame a v → SpellsFrame b w
        → a ++ x ≡ b ++ y → (a ≡ b) × (v ≡ w) × (x ≡ y) }
    ensures one_fault { (bytes : List ℕ) (d e : FrameFault) → SpellingFault d bytes → SpellingFault
        e bytes → d ≡ e }
    ensures either { (bytes : List ℕ) → IsBytes bytes → ((x : PlainFrame) × SpellsFrame bytes x) ⊎
        ((e : FrameFault) × SpellingFault e bytes) }
    ensures never_both { (bytes : List ℕ) (x : PlainFrame) (e : FrameFault) → SpellsFrame bytes x →
        SpellingFault e bytes → ⊥ }
{}

/// The same laws of what a node of version 2 reads.
pub fn stamped_laws()
    ensures one_spelling { (a b x y : List ℕ) (v w : PlainStamped) → SpellsStamped a v →
        SpellsStamped b w → a ++ x ≡ b ++ y → (a ≡ b) × (v ≡ w) × (x ≡ y) }
    ensures one_fault { (bytes : List ℕ) (d e : FrameFault) → StampedFault d bytes → StampedFault e
        bytes → d ≡ e }
    ensures either { (bytes : List ℕ) → IsBytes bytes → ((x : PlainStamped) × SpellsStamped bytes x)
        ⊎ ((e : FrameFault) × StampedFault e bytes) }
    ensures never_both { (bytes : List ℕ) (x : PlainStamped) (e : FrameFault) → SpellsStamped bytes
        x → StampedFault e bytes → ⊥ }
{}

/// Laws of the one answer: it is the frame exactly where the bytes spell a typed one, and else the first refusal.
pub fn reading_laws()
    ensures frame { (bytes : List ℕ) (x : PlainFrame) → Accepts bytes x → frame_of bytes ≡ Ok x }
    ensures only { (bytes : List ℕ) (x : PlainFrame) → IsBytes bytes → frame_of bytes ≡ Ok x →
        Accepts bytes x }
    ensures refusal { (bytes : List ℕ) (e : FrameFault) → IsBytes bytes → FrameFirst e bytes →
        frame_of bytes ≡ Err e }
{}

/// The same of what a node of a version reads.
pub fn version_laws()
    ensures frame { (v : Version) (bytes : List ℕ) (x : PlainStamped) → AcceptsBy v bytes x →
        read_by v bytes ≡ Ok x }
    ensures only { (v : Version) (bytes : List ℕ) (x : PlainStamped) → IsBytes bytes → read_by v
        bytes ≡ Ok x → AcceptsBy v bytes x }
    ensures refusal { (bytes : List ℕ) (e : FrameFault) → IsBytes bytes → StampedFirst e bytes →
        read_by Two bytes ≡ Err e }
{}
