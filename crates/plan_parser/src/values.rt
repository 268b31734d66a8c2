//! Reading values.
ghost use Rattle.std.specs.Prelude.{◌≡◌, ◌≤◌, ◌+◌, ◌-◌, [], ◌∷◌, length, Result, Ok, Err};
ghost use Rattle.plan_base.specs.Sizes.{type_depth};
ghost use Rattle.plan_parser_exprs.specs.Ahead.{Gives, Answers, next_kind};
ghost use Rattle.plan_parser_exprs.specs.Types.{past, more};
ghost use Rattle.plan_parser.specs.Values as spec;
ghost use Rattle.plan_parser.specs.Values.{value_to};
ghost use Rattle.plan_parser.specs.InsideValues.{ReadsValues};

use crate::item::{TypedValue, begins_value, list_of, literal_at, one_value, tuple_of, with_type};
use containers::Items;
use plan_base::{Limit, Ty, Value, Values};
use plan_base_eq::SameAs;
use plan_base_size::HasDepth;
use plan_lexer::Symbol;
use plan_parser_exprs::{Ahead, MOST_ITEMS, MOST_PARTS, ParseFault, Wanted, opens, type_to};
use std::alloc::Global;

/// The lists and tuples that may stand inside each other.
pub const MOST_NESTED: u32 = 7;

/// What reads values, with the function that reads those inside one more list or tuple.
#[derive(Drop)]
pub struct ValueReader<F> {
    pub alloc: Global,
    /// The brackets that are open around the whole value, at most 1.
    pub outside: u32,
    /// The lists and tuples that may open inside here, at most 7.
    pub room: u32,
    pub read: F,
}

/// The fault at a value past a limit, which the comma before it announces.
#[tactic(auto, unfolding(plan_parser_exprs::specs::Types::past))]
pub fn past_value(ahead: &Ahead<'_>, limit: Limit) -> ParseFault
    ensures { result ≡ past spec.begins_value limit Wanted.AValue ahead.now }
{
    if begins_value(ahead) {
        return ParseFault::TooMany(limit, ahead.place());
    }
    ParseFault::Expected(Wanted::AValue, ahead.place())
}

/// Refuses an item of a list that hasn't the type of the first.
#[tactic(auto, unfolding(crate::specs::Values::judged_item))]
fn judge_item(t: &Ty, at: u32, item: TypedValue, ahead: &Ahead<'_>) -> Result<Value, ParseFault>
    ensures { Gives (spec.judged_item t.now at item ahead.now) result ahead.now }
{
    if !item.ty.is(t) {
        drop(item);
        return Err(ParseFault::Expected(Wanted::AValue, at));
    }
    let TypedValue { value, ty } = item;
    drop(ty);
    Ok(value)
}

/// Refuses an empty list of such a type where it is too deep.
#[tactic(auto, unfolding(crate::specs::Values::fits))]
fn fits(room: u32, at: u32, t: &Ty) -> Result<(), ParseFault>
    requires { room ≤ 7 }
    ensures { Answers (spec.fits room at t.now) result }
{
    if t.depth() > room {
        return Err(ParseFault::TooDeep(at));
    }
    Ok(())
}

impl<F: Fn(Global, u32, u32, &mut Ahead<'_>) -> Result<TypedValue, ParseFault>> ValueReader<F> {
    fn inner(&self, ahead: &mut Ahead<'_>) -> Result<TypedValue, ParseFault>
        requires { ReadsValues self.now.outside self.now.room (F.pre self.now.read)
            (F.post self.now.read) }
        ensures { Gives (value_to self.now.outside self.now.room ahead.old) result ahead.new }
    {
        (self.read)(self.alloc, self.outside, self.room, ahead)
    }

    /// Further parts behind commas.
    #[tactic(auto, using(plan_parser_exprs::proofs::Mores::more_ends, plan_parser_exprs::proofs::Mores::more_past, plan_parser_exprs::proofs::Mores::more_stops, plan_parser_exprs::proofs::Mores::more_steps))]
    fn more_parts(
        &self,
        ahead: &mut Ahead<'_>,
        parts: Items<TypedValue>,
    ) -> Result<Items<TypedValue>, ParseFault>
        requires reads { ReadsValues self.now.outside self.now.room (F.pre self.now.read)
            (F.post self.now.read) }
        requires within { length parts ≤ 8 }
        ensures { Gives (more (value_to self.now.outside self.now.room) spec.begins_value
            Symbol.Comma Limit.Parts Wanted.AValue (8 - length parts) parts ahead.old)
            result ahead.new }
    {
        let mut parts = parts;
        while ahead.is_symbol(Symbol::Comma) {
            ahead.skip();
            if parts.len() >= MOST_PARTS {
                return Err(past_value(ahead, Limit::Parts));
            }
            parts.add(self.inner(ahead)?)?;
        }
        Ok(parts)
    }

    /// The further parts of a tuple.
    #[tactic(auto, unfolding(crate::specs::Values::tuple_from))]
    fn tuple_from(&self, ahead: &mut Ahead<'_>, first: TypedValue) -> Result<TypedValue, ParseFault>
        requires { ReadsValues self.now.outside self.now.room (F.pre self.now.read)
            (F.post self.now.read) }
        ensures { Gives (spec.tuple_from (value_to self.now.outside self.now.room) self.now.outside
            self.now.room first ahead.old) result ahead.new }
    {
        let mut parts = Items::new(self.alloc);
        parts.add(first)?;
        match self.more_parts(ahead, parts) {
            Ok(parts) => match ahead.need_symbol(Symbol::ParenClose) {
                Ok(()) => tuple_of(self.alloc, parts),
                Err(fault) => Err(fault),
            },
            Err(fault) => Err(fault),
        }
    }

    /// There must be a second part.
    #[tactic(auto, unfolding(crate::specs::Values::tuple))]
    fn tuple(&self, ahead: &mut Ahead<'_>, first: TypedValue) -> Result<TypedValue, ParseFault>
        requires { ReadsValues self.now.outside self.now.room (F.pre self.now.read)
            (F.post self.now.read) }
        ensures { Gives (spec.tuple (value_to self.now.outside self.now.room) self.now.outside
            self.now.room first ahead.old) result ahead.new }
    {
        if !ahead.is_symbol(Symbol::Comma) {
            drop(first);
            return Err(ParseFault::Expected(Wanted::Symbol(Symbol::Comma), ahead.place()));
        }
        self.tuple_from(ahead, first)
    }

    /// A tuple, whose bracket stands at `at`.
    #[tactic(auto, unfolding(crate::specs::Values::grouped_value))]
    fn tuple_at(&self, ahead: &mut Ahead<'_>, at: u32) -> Result<TypedValue, ParseFault>
        requires { ReadsValues self.now.outside self.now.room (F.pre self.now.read)
            (F.post self.now.read) }
        ensures { Gives (spec.grouped_value (value_to self.now.outside self.now.room)
            self.now.outside self.now.room at ahead.old) result ahead.new }
    {
        if self.room == 0 {
            return Err(ParseFault::TooDeep(at));
        }
        let first = self.inner(ahead)?;
        self.tuple(ahead, first)
    }

    /// What a round bracket begins.
    #[tactic(auto, unfolding(crate::specs::Values::parens))]
    fn parens(&self, ahead: &mut Ahead<'_>) -> Result<TypedValue, ParseFault>
        requires { ReadsValues self.now.outside self.now.room (F.pre self.now.read)
            (F.post self.now.read) }
        ensures { Gives (spec.parens (value_to self.now.outside self.now.room) self.now.outside
            self.now.room ahead.old) result ahead.new }
    {
        let at = ahead.place();
        ahead.skip();
        if ahead.is_symbol(Symbol::ParenClose) {
            ahead.skip();
            return Ok(with_type(Value::Unit, Ty::Unit));
        }
        if begins_value(ahead) {
            return self.tuple_at(ahead, at);
        }
        Err(ParseFault::Expected(Wanted::Symbol(Symbol::ParenClose), ahead.place()))
    }

    /// A further item of a list.
    #[tactic(auto, unfolding(crate::specs::Values::like))]
    fn like(&self, ahead: &mut Ahead<'_>, t: &Ty) -> Result<Value, ParseFault>
        requires { ReadsValues self.now.outside self.now.room (F.pre self.now.read)
            (F.post self.now.read) }
        ensures { Gives (spec.like (value_to self.now.outside self.now.room) self.now.outside
            self.now.room t.now ahead.old) result ahead.new }
    {
        let at = ahead.place();
        let item = self.inner(ahead)?;
        judge_item(t, at, item, ahead)
    }

    /// Further items of that type behind commas.
    #[tactic(auto, using(plan_parser_exprs::proofs::Mores::more_ends, plan_parser_exprs::proofs::Mores::more_past, plan_parser_exprs::proofs::Mores::more_stops, plan_parser_exprs::proofs::Mores::more_steps))]
    fn more_items(&self, ahead: &mut Ahead<'_>, t: &Ty, items: Values) -> Result<Values, ParseFault>
        requires reads { ReadsValues self.now.outside self.now.room (F.pre self.now.read)
            (F.post self.now.read) }
        requires within { length items ≤ 63 }
        ensures { Gives (more (spec.like (value_to self.now.outside self.now.room) self.now.outside
            self.now.room t.now) spec.begins_value Symbol.Comma Limit.Items Wanted.AValue
            (63 - length items) items ahead.old) result ahead.new }
    {
        let mut items = items;
        while ahead.is_symbol(Symbol::Comma) {
            ahead.skip();
            if items.len() >= MOST_ITEMS {
                return Err(past_value(ahead, Limit::Items));
            }
            items.add(self.like(ahead, t)?)?;
        }
        Ok(items)
    }

    /// Items in brackets.
    #[tactic(auto, unfolding(crate::specs::Values::listing))]
    fn listing(&self, ahead: &mut Ahead<'_>) -> Result<TypedValue, ParseFault>
        requires { ReadsValues self.now.outside self.now.room (F.pre self.now.read)
            (F.post self.now.read) }
        ensures { Gives (spec.listing (value_to self.now.outside self.now.room) self.now.outside
            self.now.room ahead.old) result ahead.new }
    {
        let TypedValue { value, ty } = self.inner(ahead)?;
        match one_value(self.alloc, value) {
            Ok(items) => match self.more_items(ahead, &ty, items) {
                Ok(items) => match ahead.need_symbol(Symbol::BracketClose) {
                    Ok(()) => list_of(self.alloc, ty, items),
                    Err(fault) => {
                        drop(ty);
                        Err(fault)
                    }
                },
                Err(fault) => {
                    drop(ty);
                    Err(fault)
                }
            },
            Err(fault) => {
                drop(ty);
                Err(fault)
            }
        }
    }

    /// An empty list with its element type, where 160 constructs may be open.
    #[tactic(auto, unfolding(crate::specs::Values::typed_nil))]
    fn typed_nil(&self, ahead: &mut Ahead<'_>, at: u32) -> Result<TypedValue, ParseFault>
        requires few { (self.now.room ≤ 7) × (self.now.outside ≤ 1) }
        ensures { Gives (spec.typed_nil (value_to self.now.outside self.now.room) self.now.outside
            self.now.room at ahead.old) result ahead.new }
    {
        ahead.skip();
        let t = type_to(self.alloc, 153 + self.room - self.outside, ahead)?;
        match fits(self.room, at, &t) {
            Ok(()) => match ahead.need_symbol(Symbol::BracketClose) {
                Ok(()) => list_of(self.alloc, t, Items::new(self.alloc)),
                Err(fault) => {
                    drop(t);
                    Err(fault)
                }
            },
            Err(fault) => {
                drop(t);
                Err(fault)
            }
        }
    }

    /// What a square bracket begins.
    #[tactic(auto, unfolding(crate::specs::Values::brackets))]
    fn brackets(&self, ahead: &mut Ahead<'_>) -> Result<TypedValue, ParseFault>
        requires reads { ReadsValues self.now.outside self.now.room (F.pre self.now.read)
            (F.post self.now.read) }
        requires few { (self.now.room ≤ 7) × (self.now.outside ≤ 1) }
        ensures { Gives (spec.brackets (value_to self.now.outside self.now.room) self.now.outside
            self.now.room ahead.old) result ahead.new }
    {
        opens(self.room, ahead)?;
        let at = ahead.place();
        ahead.skip();
        if ahead.is_symbol(Symbol::Colon) {
            return self.typed_nil(ahead, at);
        }
        if begins_value(ahead) {
            return self.listing(ahead);
        }
        Err(ParseFault::Expected(Wanted::AValue, ahead.place()))
    }

    #[tactic(auto, unfolding(crate::specs::Values::value_at))]
    fn value_at(&self, ahead: &mut Ahead<'_>) -> Result<TypedValue, ParseFault>
        requires reads { ReadsValues self.now.outside self.now.room (F.pre self.now.read)
            (F.post self.now.read) }
        requires few { (self.now.room ≤ 7) × (self.now.outside ≤ 1) }
        ensures { Gives (spec.value_at (value_to self.now.outside self.now.room) self.now.outside
            self.now.room ahead.old) result ahead.new }
    {
        if ahead.is_symbol(Symbol::ParenOpen) {
            return self.parens(ahead);
        }
        if ahead.is_symbol(Symbol::BracketOpen) {
            return self.brackets(ahead);
        }
        literal_at(self.alloc, ahead)
    }
}

/// A value, in which so many lists and tuples less one may stand inside each other.
pub fn value_to(
    alloc: Global,
    outside: u32,
    room: u32,
    ahead: &mut Ahead<'_>,
) -> Result<TypedValue, ParseFault>
    requires { (room ≤ 8) × (outside ≤ 1) }
    ensures { Gives (value_to outside room ahead.old) result ahead.new }
{
    if room == 0 {
        return Err(ParseFault::TooDeep(ahead.place()));
    }
    ValueReader {
        alloc,
        outside,
        room: room - 1,
        read: value_to,
    }
    .value_at(ahead)
}
