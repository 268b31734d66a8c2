//! The logs of a fleet judged together: what is found there of each family, whether every frame that arrived was sent, and the verdict as a text.
#![tactic(auto)]

mod book;
mod judging;
mod keys;
mod laws;
mod once;
mod reckoning;
mod row_laws;
mod tally;
mod text;
mod verdict;
mod verdict_laws;

pub use book::{Counts, FamilyTotals};
pub use keys::{CrossingKey, EndKey, FamilyKey};
pub use laws::{accepted_is_sent, ledger_adds_up};
pub use once::{accepted_once, sent_once};
pub use reckoning::{Arrived, AuditState, LogPosition, nothing_reckoned, reckon_log};
pub use row_laws::{rows_in_order, rows_of_injected};
pub use tally::{SendCount, Tallies};
pub use text::verdict_text;
pub use verdict::{LedgerRows, Verdict, audit, judge};
pub use verdict_laws::yes_is_sent;
