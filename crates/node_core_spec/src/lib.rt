//! What a node does: the types of its acts, its state, and its step at each event as a definition; and the queue of a device.
#![tactic(auto)]

mod acts;
mod laws;

pub use acts::{Act, ActList, Acts, Reason, Sending, Sendings, TxQueue};
pub use laws::{
    contexts_are_ordered, queues_move_in_order, settled_visit_balance, step_balance, step_keeps,
    visit_balance, visit_has_case, windows_only_close,
};
pub use network_config::Event;
pub use packet_frame::What;
pub use replay_window::Took;
