//! Laws that the first fault of a chunk and of a frame is that of flat lists of what must be read, down to the bytes.
//!
//! Each law stands on a function without code, so that contracts of other crates can name it.

ghost use Rattle.std.specs.Prelude.{◌≡◌, ◌↔◌, ℕ, List, Err};
ghost use Rattle.wire_bytes.specs.Fields.{Front, IsBytes};
ghost use Rattle.chunk_codec_spec.specs.declared.fault.SpellFault.{SpellFault};
ghost use Rattle.chunk_codec_spec.specs.Items.{a_type, a_value, a_program, a_chunk};
ghost use Rattle.chunk_codec_spec.specs.Programs.{program_part};
ghost use Rattle.chunk_codec_spec.specs.Spelling.{from_front, FirstFaultAt, a_whole_type, a_whole_value, a_whole_chunk};
ghost use Rattle.packet_frame.specs.declared.fault.FrameFault.{FrameFault};
ghost use Rattle.packet_frame.specs.Frames.{SpellingFault};
ghost use Rattle.packet_frame.specs.Stamped.{StampedFault};
ghost use Rattle.file_laws.specs.Flat.{FlatSpellingFault, FlatStampedFault};

/// A reading of a type, a value, a program or a chunk is refused exactly with the first fault of its agenda, each item of
/// which is a field of its own, a tag, a count or a judgement of what was passed over.
pub fn readings_fail_first()
    ensures types { (f : Front) (e : SpellFault) → (a_whole_type.read (from_front f) ≡ Err e)
        ↔ FirstFaultAt e (a_type 8) f }
    ensures values { (f : Front) (e : SpellFault) → (a_whole_value.read (from_front f) ≡ Err e)
        ↔ FirstFaultAt e (a_value 4 8) f }
    ensures programs { (f : Front) (e : SpellFault) → (program_part.read (from_front f) ≡ Err e)
        ↔ FirstFaultAt e a_program f }
    ensures chunks { (f : Front) (e : SpellFault) → (a_whole_chunk.read (from_front f) ≡ Err e)
        ↔ FirstFaultAt e (a_chunk 3) f }
{}

/// The first fault of a frame is the first of its fields, of which a chunk is judged by its own agenda, down to the bytes.
pub fn frame_faults_are_flat()
    ensures { (bytes : List ℕ) (e : FrameFault) → IsBytes bytes → SpellingFault e bytes
        ↔ FlatSpellingFault e bytes }
{}

/// The same of a frame of version 2, whose stamp, handler and rows are fields among the others.
pub fn stamped_faults_are_flat()
    ensures { (bytes : List ℕ) (e : FrameFault) → IsBytes bytes → StampedFault e bytes
        ↔ FlatStampedFault e bytes }
{}
