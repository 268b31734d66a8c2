//! What services are to a node: their types, what a call of one is given and answers, the rows of a node's tables, adverts and routes.
#![tactic(auto)]

mod advert;
mod answer;
mod ctx;
mod laws;
mod matching;
mod package;
mod router;
mod row;
mod scheme;
mod services;

pub use advert::{Advert, AdvertRow, AdvertRows};
pub use answer::{Answer, Note, Notes};
pub use ctx::{Ctx, Neighbours};
pub use laws::instances;
pub use matching::instance;
pub use package::{PackageName, Packages};
pub use router::{Hop, RouteRow, RouteRows, Router};
pub use row::Row;
pub use scheme::{Scheme, SchemeTy, SchemeTys};
pub use services::Services;
