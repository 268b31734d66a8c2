//! The trees of the packet language and of packets, and the names in them.
#![tactic(auto)]

mod bytes;
mod ids;
mod letters;
mod limit;
mod memory;
mod name;
mod prim;
mod stamp;
mod text;
mod tree;

pub use bytes::Bytes;
pub use ids::{Dev, Family, Host};
pub use limit::Limit;
pub use memory::NoMemory;
pub use name::{Name, NameFault, Names, is_name, is_reserved, same_bytes};
pub use prim::Primitive;
pub use stamp::{Stamp, Version};
pub use text::{Text, Texts};
pub use tree::{
    Chunk, Clause, Clauses, Draft, Exn, Expr, Exprs, Fun, Funs, Op, Packet, Param, Params, Place,
    Places, Program, Svc, Svcs, Ty, Tys, Value, Values,
};
