//! The sizes of trees are the lengths of their spellings, and what can be spelled is well formed.

ghost use Rattle.std.specs.Prelude.{◌≡◌, length};
ghost use Rattle.plan_base.specs.WellFormed.{IsWellFormedType, IsWellFormedValue, IsWellFormedProgram, IsWellFormedChunk, ValueHasTypes, ProgramHasTypes, ChunkHasTypes};
ghost use Rattle.plan_base.specs.Sizes.{type_size, code_size, weight, chunk_weight};
ghost use Rattle.plan_base.specs.declared.tree.Ty.{Ty};
ghost use Rattle.plan_base.specs.declared.tree.Program.{Program};
ghost use Rattle.plan_base.specs.declared.tree.Value.{Value};
ghost use Rattle.plan_base.specs.declared.tree.Chunk.{Chunk};
ghost use Rattle.chunk_codec_spec.specs.Types.{type_bytes};
ghost use Rattle.chunk_codec_spec.specs.Programs.{program_bytes, program_part};
ghost use Rattle.chunk_codec_spec.specs.Values.{value_bytes, chunk_bytes};
ghost use Rattle.chunk_codec_spec.specs.Spelling.{a_whole_type, a_whole_value, a_whole_chunk};

/// Laws of sizes: the size of a type, the size of a program's code and the weights of values and chunks are the
/// lengths of their spellings.
pub fn size_laws()
    ensures of_types { (t : Ty) → length (type_bytes t) ≡ type_size t }
    ensures of_programs { (p : Program) → length (program_bytes p) ≡ code_size p }
    ensures of_values { (v : Value) → length (value_bytes v) ≡ weight v }
    ensures of_chunks { (c : Chunk) → length (chunk_bytes c) ≡ chunk_weight c }
{}

/// Laws of form: what keeps the limits of a spelling is well formed, and no type of `[]` or `raise` is missing in it.
pub fn form_laws()
    ensures of_types { (t : Ty) → a_whole_type.Fits t → IsWellFormedType t }
    ensures of_programs { (p : Program) → program_part.Fits p → IsWellFormedProgram p ×
        ProgramHasTypes p }
    ensures of_values { (v : Value) → a_whole_value.Fits v → IsWellFormedValue v × ValueHasTypes v }
    ensures of_chunks { (c : Chunk) → a_whole_chunk.Fits c → IsWellFormedChunk c × ChunkHasTypes c }
{}
