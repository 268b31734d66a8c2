//! The types of services, which may leave a place open.
use containers::Items;
use plan_base::Ty;

/// A type in a service's row.
#[derive(Drop)]
pub enum SchemeTy {
    /// Any type, the same at each place of the row.
    Any,
    /// This type.
    Is(Ty),
}

/// A list of such types.
pub type SchemeTys = Items<SchemeTy>;

/// The type of a service.
#[derive(Drop)]
pub struct Scheme {
    /// The types of its arguments.
    pub params: SchemeTys,
    /// The type of its answer.
    pub result: SchemeTy,
}
