//! Laws that bytes which are no typed frame are refused for the first thing that is wrong with them: their length, then their
//! fields and items one after another, then what is left over, then the chunk, each by the list of its own layer, and last, under
//! version 2, the handler.
//!
//! Each law stands on a function without code, so that contracts of other crates can name it.

ghost use Rattle.std.specs.Prelude.{◌≡◌, ◌≢◌, ◌↔◌, ℕ, List};
ghost use Rattle.wire_bytes.specs.Fields.{Front, IsBytes};
ghost use Rattle.chunk_codec_spec.specs.Items.{ChunkItem};
ghost use Rattle.chunk_codec_spec.specs.Spelling.{FirstFaultAt};
ghost use Rattle.chunk_codec_spec.specs.declared.fault.SpellFault.{SpellFault};
ghost use Rattle.chunk_codec_spec.specs.declared.fault.SpellFault.TheVariants as spelling;
ghost use Rattle.packet_frame.specs.Typed.{Accepts, FrameFirst};
ghost use Rattle.packet_frame.specs.Stamped.{AcceptsBy, StampedFirst};
ghost use Rattle.packet_frame.specs.declared.fault.FrameFault.{FrameFault};
ghost use Rattle.packet_frame.specs.declared.frame.PlainFrame.{PlainFrame};
ghost use Rattle.packet_frame.specs.declared.frame.PlainStamped.{PlainStamped};
ghost use Rattle.plan_base.specs.declared.stamp.Version.TheVariants.{One, Two};
ghost use Rattle.file_laws.specs.FrameRefusals.{FirstRefusal, FirstStampedRefusal, IsFrameOrRefused, IsStampedOrRefused, HoldsNoMemory};

/// Any bytes are refused exactly for the first thing that is wrong with them. They are a typed frame or have a first refusal,
/// and not both, and they have at most one.
pub fn frames_are_refused_first()
    ensures first { (bytes : List ℕ) (e : FrameFault) → IsBytes bytes → FrameFirst e bytes ↔
        FirstRefusal bytes e }
    ensures some { (bytes : List ℕ) → IsBytes bytes → IsFrameOrRefused bytes }
    ensures apart { (bytes : List ℕ) (x : PlainFrame) (e : FrameFault) → IsBytes bytes → Accepts
        bytes x → FirstRefusal bytes e → ⊥ }
    ensures one { (bytes : List ℕ) (d e : FrameFault) → IsBytes bytes → FirstRefusal bytes d →
        FirstRefusal bytes e → d ≡ e }
{}

/// The same of what a node of version 2 reads: stamps, handlers and the rows of adverts are fields among the others, and a
/// handler is judged last.
pub fn stamped_frames_are_refused_first()
    ensures first { (bytes : List ℕ) (e : FrameFault) → IsBytes bytes
        → StampedFirst e bytes ↔ FirstStampedRefusal bytes e }
    ensures some { (bytes : List ℕ) → IsBytes bytes → IsStampedOrRefused bytes }
    ensures apart { (bytes : List ℕ) (x : PlainStamped) (e : FrameFault) → IsBytes bytes
        → AcceptsBy Two bytes x → FirstStampedRefusal bytes e → ⊥ }
    ensures one { (bytes : List ℕ) (d e : FrameFault) → IsBytes bytes
        → FirstStampedRefusal bytes d → FirstStampedRefusal bytes e → d ≡ e }
{}

/// No first refusal of spelled parts, or of a frame of either version, is or holds `NoMemory`.
pub fn frame_refusals_hold_no_memory()
    ensures parts { (e : SpellFault) (i : ChunkItem) (f : Front) → FirstFaultAt e i f → e ≢
        spelling.NoMemory }
    ensures frames { (bytes : List ℕ) (e : FrameFault) → IsBytes bytes → FrameFirst e bytes →
        HoldsNoMemory e }
    ensures stamped { (bytes : List ℕ) (e : FrameFault) → IsBytes bytes → StampedFirst e bytes →
        HoldsNoMemory e }
{}
