//! Laws of writing.
ghost use Rattle.std.specs.Prelude.{IsTrue};
ghost use Rattle.plan_base.specs.declared.tree.Ty.{Ty};
ghost use Rattle.plan_base.specs.declared.tree.Program.{Program};
ghost use Rattle.plan_base.specs.declared.tree.Value.{Value};
ghost use Rattle.plan_base.specs.declared.tree.Chunk.{Chunk};
ghost use Rattle.chunk_codec_spec.specs.Programs.{program_part};
ghost use Rattle.chunk_codec_spec.specs.Spelling.{a_whole_type, a_whole_value, a_whole_chunk};
ghost use Rattle.chunk_codec_spec.specs.Kept.{type_kept, program_kept, value_kept, chunk_kept};

/// Laws of writing: what keeps the limits of a spelling can be written.
pub fn writing_laws()
    ensures of_types { (t : Ty) → a_whole_type.Fits t → IsTrue (type_kept t) }
    ensures of_programs { (p : Program) → program_part.Fits p → IsTrue (program_kept p) }
    ensures of_values { (v : Value) → a_whole_value.Fits v → IsTrue (value_kept v) }
    ensures of_chunks { (c : Chunk) → a_whole_chunk.Fits c → IsTrue (chunk_kept c) }
{}
