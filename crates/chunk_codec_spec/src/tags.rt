//! The tags of types, values and expressions, with their numbers.
use plan_base::Op;

/// The form of a type.
#[derive(Clone, Copy)]
pub enum TypeTag {
    /// `Unit`
    Unit,
    /// `Bool`
    Bool,
    /// `Int`
    Int,
    /// `Char`
    Char,
    /// `Str`
    Str,
    /// `Blob`
    Blob,
    /// `Host`
    Host,
    /// `Dev`
    Dev,
    /// `Chunk`
    Chunk,
    /// `List`
    List,
    /// `Tuple`
    Tuple,
}

/// The forms of a type by their tags, from 0x00.
pub const TYPE_TAGS: [TypeTag; 11] = [
    TypeTag::Unit,
    TypeTag::Bool,
    TypeTag::Int,
    TypeTag::Char,
    TypeTag::Str,
    TypeTag::Blob,
    TypeTag::Host,
    TypeTag::Dev,
    TypeTag::Chunk,
    TypeTag::List,
    TypeTag::Tuple,
];

/// The form of a value.
#[derive(Clone, Copy)]
pub enum ValueTag {
    /// `Unit`
    Unit,
    /// `Bool`
    Bool,
    /// `Int`
    Int,
    /// `Char`
    Char,
    /// `Str`
    Str,
    /// `Blob`
    Blob,
    /// `Host`
    Host,
    /// `Dev`
    Dev,
    /// `Chunk`
    Chunk,
    /// `List`
    List,
    /// `Tuple`
    Tuple,
}

/// The forms of a value by their tags, from 0x10.
pub const VALUE_TAGS: [ValueTag; 11] = [
    ValueTag::Unit,
    ValueTag::Bool,
    ValueTag::Int,
    ValueTag::Char,
    ValueTag::Str,
    ValueTag::Blob,
    ValueTag::Host,
    ValueTag::Dev,
    ValueTag::Chunk,
    ValueTag::List,
    ValueTag::Tuple,
];

/// The form of an expression.
#[derive(Clone, Copy)]
pub enum ExprTag {
    /// `Unit`
    Unit,
    /// `Bool`
    Bool,
    /// `Int`
    Int,
    /// `Char`
    Char,
    /// `Str`
    Str,
    /// `Blob`
    Blob,
    /// `Host`
    Host,
    /// `Dev`
    Dev,
    /// `Nil`
    Nil,
    /// `Var`
    Var,
    /// `Tuple`
    Tuple,
    /// `Call`
    Call,
    /// `If`
    If,
    /// `Let`
    Let,
    /// `Then`
    Then,
    /// `And`
    And,
    /// `Or`
    Or,
    /// `Not`
    Not,
    /// `Binary`
    Binary,
    /// `Part`
    Part,
    /// `Raise`
    Raise,
    /// `Try`
    Try,
    /// `Foldl`
    Foldl,
    /// `Foldr`
    Foldr,
    /// `ChunkOf`
    ChunkOf,
    /// `Eval`
    Eval,
    /// `OnRemote`
    OnRemote,
    /// `OnNeighbor`
    OnNeighbor,
}

/// The forms of an expression by their tags, from 0x20.
pub const EXPR_TAGS: [ExprTag; 28] = [
    ExprTag::Unit,
    ExprTag::Bool,
    ExprTag::Int,
    ExprTag::Char,
    ExprTag::Str,
    ExprTag::Blob,
    ExprTag::Host,
    ExprTag::Dev,
    ExprTag::Nil,
    ExprTag::Var,
    ExprTag::Tuple,
    ExprTag::Call,
    ExprTag::If,
    ExprTag::Let,
    ExprTag::Then,
    ExprTag::And,
    ExprTag::Or,
    ExprTag::Not,
    ExprTag::Binary,
    ExprTag::Part,
    ExprTag::Raise,
    ExprTag::Try,
    ExprTag::Foldl,
    ExprTag::Foldr,
    ExprTag::ChunkOf,
    ExprTag::Eval,
    ExprTag::OnRemote,
    ExprTag::OnNeighbor,
];

/// The operators by their numbers, from 0.
pub const OPERATORS: [Op; 13] = [
    Op::Add,
    Op::Sub,
    Op::Mul,
    Op::Div,
    Op::Mod,
    Op::Cat,
    Op::Eq,
    Op::Ne,
    Op::Lt,
    Op::Le,
    Op::Gt,
    Op::Ge,
    Op::Cons,
];
