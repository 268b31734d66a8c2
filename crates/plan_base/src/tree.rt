//! The trees of PLAN: types, expressions, programs, values, chunks and packets.
use crate::bytes::Bytes;
use crate::ids::{Dev, Family, Host};
use crate::name::{Name, Names};
use crate::text::Text;
use containers::{Boxed, Items, Shared};

/// A list of types.
pub type Tys = Items<Ty>;

/// The type of a value or an expression.
#[derive(Drop)]
pub enum Ty {
    /// The type of `()`.
    Unit,
    /// Truth values.
    Bool,
    /// Whole numbers of 64 bits with sign.
    Int,
    /// Unicode scalar values.
    Char,
    /// Texts in UTF-8.
    Str,
    /// Byte strings.
    Blob,
    /// Hosts.
    Host,
    /// Devices.
    Dev,
    /// Chunks: code with an entry and arguments, not yet evaluated.
    Chunk,
    /// Lists of one element type.
    List(Boxed<Ty>),
    /// Tuples of 2 to 8 parts.
    Tuple(Tys),
}

/// An operator between two operands.
#[derive(Clone, Copy, PartialEq, Eq)]
pub enum Op {
    /// `+`
    Add,
    /// `-`
    Sub,
    /// `*`
    Mul,
    /// `/`
    Div,
    /// `mod`
    Mod,
    /// `^`, which joins two strings or two blobs
    Cat,
    /// `=`
    Eq,
    /// `<>`
    Ne,
    /// `<`
    Lt,
    /// `<=`
    Le,
    /// `>`
    Gt,
    /// `>=`
    Ge,
    /// `::`
    Cons,
}

/// A list of expressions.
pub type Exprs = Items<Expr>;

/// A list of clauses.
pub type Clauses = Items<Clause>;

/// An expression.
#[cycle(expr)]
#[derive(Drop)]
pub enum Expr {
    /// `()`
    Unit,
    /// `true` or `false`
    Bool(bool),
    /// A number
    Int(i64),
    /// A char, by its scalar value
    Char(u32),
    /// A string
    Str(Text),
    /// A blob
    Blob(Bytes),
    /// `@N`
    Host(Host),
    /// `%N`
    Dev(Dev),
    /// `[]` or `[:t]`, with its element type once it is known
    Nil(Option<Ty>),
    /// A parameter or a bound name
    Var(Name),
    /// A tuple of 2 to 8 parts
    Tuple(Exprs),
    /// A call of a primitive, a function or a service, with at most 8 arguments
    Call(Name, Exprs),
    /// `if`: condition, first branch, second branch
    If(Boxed<Expr>, Boxed<Expr>, Boxed<Expr>),
    /// `let val x : t = a in b end`
    Let(Name, Ty, Boxed<Expr>, Boxed<Expr>),
    /// `a; b`
    Then(Boxed<Expr>, Boxed<Expr>),
    /// `a and b`, which stops early
    And(Boxed<Expr>, Boxed<Expr>),
    /// `a or b`, which stops early
    Or(Boxed<Expr>, Boxed<Expr>),
    /// `not a`
    Not(Boxed<Expr>),
    /// Two operands with an operator between them
    Binary(Op, Boxed<Expr>, Boxed<Expr>),
    /// `#i a`, the part of a tuple with number i from 1 to 8
    Part(u8, Boxed<Expr>),
    /// `raise X`, with the type that it stands for once it is known
    Raise(Name, Option<Ty>),
    /// `try a handle ..`, with 1 to 8 clauses
    Try(Boxed<Expr>, Clauses),
    /// `foldl(f, start, list)`
    Foldl(Name, Boxed<Expr>, Boxed<Expr>),
    /// `foldr(f, start, list)`
    Foldr(Name, Boxed<Expr>, Boxed<Expr>),
    /// `|f|(..)`, a chunk of the whole program with entry f and at most 8 arguments
    ChunkOf(Name, Exprs),
    /// `eval(c)`
    Eval(Boxed<Expr>),
    /// `OnRemote(c, h, n, r)`: chunk, host, bound, routing name
    OnRemote(Boxed<Expr>, Boxed<Expr>, Boxed<Expr>, Name),
    /// `OnNeighbor(c, h, n, d)`: chunk, host, bound, device
    OnNeighbor(Boxed<Expr>, Boxed<Expr>, Boxed<Expr>, Boxed<Expr>),
}

/// A clause of a `try`: the exception that it catches, or none for `_`, and what it then gives.
#[cycle(expr)]
#[derive(Drop)]
pub struct Clause {
    /// The exception's name, or none for `_`.
    pub name: Option<Name>,
    /// What the clause gives.
    pub body: Expr,
}

/// A list of declared services.
pub type Svcs = Items<Svc>;

/// A declared service.
pub struct Svc {
    /// Its name.
    pub name: Name,
    /// The types of its arguments, at most 8.
    pub params: Tys,
    /// The type of its answer.
    pub result: Ty,
}

impl Drop for Svc {
    fn drop(self) {
        let Svc {
            name: _name,
            params: _params,
            result,
        } = self;
        drop(result);
    }
}

/// A list of parameters.
pub type Params = Items<Param>;

/// A parameter of a function.
#[derive(Drop)]
pub struct Param {
    /// Its name.
    pub name: Name,
    /// Its type.
    pub ty: Ty,
}

/// A list of functions.
pub type Funs = Items<Fun>;

/// A function of a program.
pub struct Fun {
    /// Its name.
    pub name: Name,
    /// Its parameters, at most 8.
    pub params: Params,
    /// The type of its body.
    pub result: Ty,
    /// What it computes.
    pub body: Expr,
}

impl Drop for Fun {
    fn drop(self) {
        let Fun {
            name: _name,
            params: _params,
            result,
            body,
        } = self;
        drop(result);
        drop(body);
    }
}

/// A program: services, exceptions and functions, at most 64 of each and at least one function.
pub struct Program {
    /// The declared services.
    pub svcs: Svcs,
    /// The declared exceptions.
    pub exns: Names,
    /// The functions, each of which may call earlier ones.
    pub funs: Funs,
}

// (as a service and a function with its own `Drop`, so that a crate which drops a program need not prove again how its
// expressions are dropped)
impl Drop for Program {
    fn drop(self) {
        let Program {
            svcs: _svcs,
            exns: _exns,
            funs: _funs,
        } = self;
    }
}

/// Byte places in a text, from 0.
pub type Places = Items<u32>;

/// A program as it was read, with the places of its declarations and expressions in the text.
#[derive(Drop)]
pub struct Draft {
    /// The program, in which types of `[]` and `raise` may be missing.
    pub program: Program,
    /// The place of each declaration: services, then exceptions, then functions.
    pub decl_at: Places,
    /// The place of each expression, in preorder over the functions.
    pub node_at: Places,
}

/// A list of values.
pub type Values = Items<Value>;

/// A value.
#[cycle(value)]
#[derive(Drop)]
pub enum Value {
    /// `()`
    Unit,
    /// `true` or `false`
    Bool(bool),
    /// A number
    Int(i64),
    /// A char, by its scalar value
    Char(u32),
    /// A string
    Str(Text),
    /// A blob
    Blob(Bytes),
    /// A host
    Host(Host),
    /// A device
    Dev(Dev),
    /// A chunk
    Chunk(Boxed<Chunk>),
    /// A list with its element type, in a box, since a value would otherwise be twice as large
    List(Boxed<Ty>, Values),
    /// A tuple of 2 to 8 parts
    Tuple(Values),
}

/// A chunk: code, the function at which its evaluation begins, and that function's arguments.
#[cycle(value)]
#[derive(Drop)]
pub struct Chunk {
    /// The whole program, which copies of the chunk share.
    pub code: Shared<Program>,
    /// The name of the entry function.
    pub entry: Name,
    /// The entry's arguments, at most 8.
    pub args: Values,
}

/// An exception by its name.
#[derive(Drop)]
pub struct Exn(pub Name);

/// A packet.
#[derive(Drop)]
pub struct Packet {
    /// The family that it belongs to.
    pub family: Family,
    /// The host at which its chunk is evaluated.
    pub dest: Host,
    /// The hops and evals that it may still pay, at most 65,535.
    pub bound: u32,
    /// The name of the routing function.
    pub route: Name,
    /// What it carries.
    pub chunk: Chunk,
    /// The name of its handler, a function of its code that is called with why a visit gave no value.
    pub handler: Option<Name>,
}

/// A place in a draft: a declaration or an expression, by its number from 0.
#[derive(Clone, Copy)]
pub enum Place {
    /// A declaration.
    Decl(u32),
    /// An expression, in preorder.
    Node(u32),
}
