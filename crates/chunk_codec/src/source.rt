//! Where a reading stands, and the fields that are read there.
ghost use Rattle.std.specs.Prelude.{◌≡◌, ◌<◌, OnOk, IfOk, IsTrue};
ghost use Rattle.std.specs.Int.{w8, w16, w32};
ghost use Rattle.chunk_codec_spec.specs.Scan.{number_field, int_field, bytes_field, flag_field, char_field, text_field, blob_field, name_field, operator_field, count_field};
ghost use Rattle.chunk_codec_spec.specs.Types.{type_tag_at};
ghost use Rattle.chunk_codec_spec.specs.Exprs.{expr_tag_at, clause_tag_at};
ghost use Rattle.chunk_codec_spec.specs.Programs.{counting};
ghost use Rattle.chunk_codec_spec.specs.Values.{value_tag_at, may_open};
ghost use Rattle.chunk_codec.specs.Reading.{Gives, Lends};

use crate::tags::{can_stand, is_char, is_text, item_of, limit_passed};
use chunk_codec_spec::{
    EXPR_TAGS, ExprTag, OPERATORS, SpellFault, TYPE_TAGS, TypeTag, VALUE_TAGS, ValueTag,
};
use plan_base::{Bytes, Limit, Name, NameFault, Op, Text};
use std::alloc::Global;
use std::marker::Model;
use wire_bytes::Cursor;

/// Where a reading stands: a cursor, and how many expressions of the program were read.
#[derive(Drop)]
pub struct Source<'a> {
    cursor: Cursor<'a>,
    nodes: u32,
}

impl<'a> Model for Source<'a> {
    ghost use Rattle.chunk_codec_spec.specs.Scan.{Scan};

    ghost Value = { Scan };

    ghost view = { λ s. record { front = s.cursor; nodes = s.nodes } };
}

impl<'a> Source<'a> {
    /// A reading from a cursor on, with no expression read.
    pub fn at(cursor: Cursor<'a>) -> Source<'a>
        ensures front { result.front ≡ cursor.entry }
        ensures nodes { result.nodes ≡ 0 }
    {
        Source { cursor, nodes: 0 }
    }

    /// The cursor at which the reading came out.
    pub fn into_cursor(self) -> Cursor<'a>
        ensures { result ≡ self.entry.front }
    {
        let Source { cursor, nodes: _ } = self;
        cursor
    }

    /// The place of the next field.
    pub fn place(&self) -> u32
        ensures { result ≡ self.now.front.at }
    {
        self.cursor.at()
    }

    /// The next byte.
    #[tactic(auto, unfolding(chunk_codec_spec::specs::Scan::number_field))]
    pub fn byte(&mut self) -> Result<u8, SpellFault>
        ensures { Gives result self.new (number_field w8 self.old) }
    {
        Ok(self.cursor.u8()?)
    }

    /// The next number of two bytes.
    #[tactic(auto, unfolding(chunk_codec_spec::specs::Scan::number_field))]
    pub fn short(&mut self) -> Result<u16, SpellFault>
        ensures { Gives result self.new (number_field w16 self.old) }
    {
        Ok(self.cursor.u16()?)
    }

    /// The next number of four bytes.
    #[tactic(auto, unfolding(chunk_codec_spec::specs::Scan::number_field))]
    pub fn word(&mut self) -> Result<u32, SpellFault>
        ensures { Gives result self.new (number_field w32 self.old) }
    {
        Ok(self.cursor.u32()?)
    }

    /// The next number with sign.
    #[tactic(auto, unfolding(chunk_codec_spec::specs::Scan::int_field))]
    pub fn int(&mut self) -> Result<i64, SpellFault>
        ensures { Gives result self.new (int_field self.old) }
    {
        Ok(self.cursor.i64()?)
    }

    /// The next `n` bytes.
    #[tactic(auto, unfolding(chunk_codec_spec::specs::Scan::bytes_field))]
    pub fn bytes(&mut self, n: u32) -> Result<&'a [u8], SpellFault>
        ensures { Lends (λ x. x.now) result self.new (bytes_field n self.old) }
    {
        Ok(self.cursor.take(n)?)
    }

    /// The next count, at least `least`, or `BadTag`, and at most `most`, or the limit is passed.
    #[tactic(auto, unfolding(chunk_codec_spec::specs::Scan::count_field))]
    pub fn count(&mut self, limit: Limit, least: u8, most: u8) -> Result<u8, SpellFault>
        ensures { Gives result self.new (count_field limit least most self.old) }
    {
        let at = self.place();
        let count = self.byte()?;
        if count < least {
            return Err(SpellFault::BadTag(at));
        }
        if count > most {
            return Err(SpellFault::OverLimit(limit, at));
        }
        Ok(count)
    }

    /// The next tag of a type, where `room` more levels may be opened.
    #[tactic(auto, unfolding(chunk_codec_spec::specs::Types::type_tag_at, chunk_codec_spec::specs::Scan::table_field))]
    pub fn type_tag(&mut self, room: u32) -> Result<TypeTag, SpellFault>
        ensures gives { Gives result self.new (type_tag_at room self.old) }
        ensures open { OnOk result (0 < room) }
    {
        let at = self.place();
        let byte = self.byte()?;
        match item_of(0x00, &TYPE_TAGS, byte) {
            None => Err(SpellFault::BadTag(at)),
            Some(_) if room == 0 => Err(SpellFault::OverLimit(Limit::OfType, at)),
            Some(tag) => Ok(tag),
        }
    }

    /// The next truth value.
    #[tactic(auto, unfolding(chunk_codec_spec::specs::Scan::flag_field, chunk_codec_spec::specs::Scan::table_field))]
    pub fn flag(&mut self) -> Result<bool, SpellFault>
        ensures { Gives result self.new (flag_field self.old) }
    {
        let at = self.place();
        let byte = self.byte()?;
        let flags = [false, true];
        match item_of(0, &flags, byte) {
            None => Err(SpellFault::BadTag(at)),
            Some(flag) => Ok(flag),
        }
    }

    /// The next operator.
    #[tactic(auto, unfolding(chunk_codec_spec::specs::Scan::operator_field, chunk_codec_spec::specs::Scan::table_field))]
    pub fn operator(&mut self) -> Result<Op, SpellFault>
        ensures { Gives result self.new (operator_field self.old) }
    {
        let at = self.place();
        let byte = self.byte()?;
        match item_of(0, &OPERATORS, byte) {
            None => Err(SpellFault::BadTag(at)),
            Some(op) => Ok(op),
        }
    }

    /// The next Unicode scalar.
    #[tactic(auto, unfolding(chunk_codec_spec::specs::Scan::char_field))]
    pub fn scalar(&mut self) -> Result<u32, SpellFault>
        ensures { Gives result self.new (char_field self.old) }
    {
        let at = self.place();
        let code = self.word()?;
        if is_char(code) {
            Ok(code)
        } else {
            Err(SpellFault::BadUtf8(at))
        }
    }

    /// The next text, behind its length.
    #[tactic(auto, unfolding(chunk_codec_spec::specs::Scan::text_field))]
    pub fn text(&mut self, alloc: Global) -> Result<Text, SpellFault>
        ensures { Gives result self.new (text_field self.old) }
    {
        let size = self.short()?;
        let at = self.place();
        let bytes = self.bytes(u32::from(size))?;
        if !is_text(bytes) {
            return Err(SpellFault::BadUtf8(at));
        }
        Ok(Text::of(Vec::from_slice(alloc, bytes)?))
    }

    /// The next blob, behind its length.
    #[tactic(auto, unfolding(chunk_codec_spec::specs::Scan::blob_field))]
    pub fn blob(&mut self, alloc: Global) -> Result<Bytes, SpellFault>
        ensures { Gives result self.new (blob_field self.old) }
    {
        let size = self.short()?;
        let bytes = self.bytes(u32::from(size))?;
        Ok(Bytes::of(Vec::from_slice(alloc, bytes)?))
    }

    /// The next name, behind its length.
    #[tactic(auto, unfolding(chunk_codec_spec::specs::Scan::name_field))]
    pub fn name(&mut self, alloc: Global) -> Result<Name, SpellFault>
        ensures { Gives result self.new (name_field self.old) }
    {
        let at = self.place();
        let size = self.byte()?;
        if size < 1 {
            return Err(SpellFault::BadName(at));
        }
        if size > 32 {
            return Err(SpellFault::BadName(at));
        }
        let bytes = self.bytes(u32::from(size))?;
        match Name::read(alloc, bytes) {
            Ok(name) => Ok(name),
            Err(NameFault::BadName) => Err(SpellFault::BadName(at)),
            Err(NameFault::NoMemory) => Err(SpellFault::NoMemory),
        }
    }

    /// The next tag of an expression, where `room` more levels may be opened; it counts.
    #[tactic(auto, unfolding(chunk_codec_spec::specs::Exprs::expr_tag_at, chunk_codec_spec::specs::Scan::table_field))]
    pub fn expr_tag(&mut self, room: u32) -> Result<ExprTag, SpellFault>
        ensures gives { Gives result self.new (expr_tag_at room self.old) }
        ensures open { OnOk result (0 < room) }
    {
        let at = self.place();
        let byte = self.byte()?;
        match item_of(0x20, &EXPR_TAGS, byte) {
            None => Err(SpellFault::BadTag(at)),
            Some(_) if self.nodes >= 4096 => Err(SpellFault::OverLimit(Limit::Nodes, at)),
            Some(_) if room == 0 => Err(SpellFault::OverLimit(Limit::Depth, at)),
            Some(tag) => {
                self.nodes += 1;
                Ok(tag)
            }
        }
    }

    /// Whether the next clause has a name, by its tag; only the last may have none.
    #[tactic(auto, unfolding(chunk_codec_spec::specs::Exprs::clause_tag_at, chunk_codec_spec::specs::Scan::table_field))]
    pub fn clause_tag(&mut self, last: bool) -> Result<bool, SpellFault>
        ensures { Gives result self.new (clause_tag_at last self.old) }
    {
        let at = self.place();
        let byte = self.byte()?;
        match item_of(0, &[false, true], byte) {
            None => Err(SpellFault::BadTag(at)),
            Some(named) => {
                if named || last {
                    Ok(named)
                } else {
                    Err(SpellFault::BadTag(at))
                }
            }
        }
    }

    /// The next tag of a value, where `nest` chunks and `room` levels may still be opened.
    #[tactic(auto, unfolding(chunk_codec_spec::specs::Values::value_tag_at, chunk_codec_spec::specs::Scan::table_field))]
    pub fn value_tag(&mut self, nest: u32, room: u32) -> Result<ValueTag, SpellFault>
        ensures gives { Gives result self.new (value_tag_at nest room self.old) }
        ensures open { IfOk result (λ tag. IsTrue (may_open nest room tag)) }
    {
        let at = self.place();
        let byte = self.byte()?;
        match item_of(0x10, &VALUE_TAGS, byte) {
            None => Err(SpellFault::BadTag(at)),
            Some(tag) => {
                if can_stand(nest, room, tag) {
                    Ok(tag)
                } else {
                    Err(SpellFault::OverLimit(limit_passed(tag), at))
                }
            }
        }
    }

    /// From here on the expressions of a program are counted from none; gives the count so far.
    pub fn count_anew(&mut self) -> u32
        ensures so_far { result ≡ self.old.nodes }
        ensures anew { self.new ≡ counting 0 self.old }
    {
        let nodes = self.nodes;
        self.nodes = 0;
        nodes
    }

    /// From here on expressions are counted on from `nodes`.
    pub fn count_on(&mut self, nodes: u32)
        ensures { self.new ≡ counting nodes self.old }
    {
        self.nodes = nodes;
    }
}
