//! Commands that act on what one file says: the reading of that file, and the commands that write one text of it; and why any
//! call ends, with its status and the note that says it.
#![tactic(auto)]

mod by_file;
mod check;
mod command;
mod lines;
mod note;
mod services;
mod show;
mod status;

pub use by_file::on_file;
pub use check::Check;
pub use command::{FileCommand, print};
pub use lines::{LineValue, MOST_FILE_BYTES, value_in, value_of};
pub use note::settle;
pub use services::services_of;
pub use show::Show;
pub use status::{Cause, Refusal, Status};
