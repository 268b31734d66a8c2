// What two messages that come in the wrong order are to a receiver, and what two acks are to a sender.

use plan_base::{Bytes, Host, Value};
use reliable_ports::{Ack, Came, Receiver, Sender};
use remote_calls::Purse;
use std::alloc::Global;

/// A message that comes: its number and its body, what it is to the receiver, how many are delivered then, and the number
/// that the next ack says.
struct Coming {
    seq: i64,
    body: &'static [u8],
    came: Came,
    delivered: usize,
    next: i64,
}

/// The second message and then the first one.
static REORDERED: [Coming; 2] = [
    Coming {
        seq: 2,
        body: b"b",
        came: Came::Ahead,
        delivered: 0,
        next: 1,
    },
    Coming {
        seq: 1,
        body: b"a",
        came: Came::Delivered(2),
        delivered: 2,
        next: 3,
    },
];

fn is_heard(alloc: Global, receiver: &mut Receiver, seq: i64, body: &Bytes, came: Came) -> bool {
    receiver.delivered().len() < 1_000
        && match receiver.heard(alloc, seq, body) {
            Ok(answer) => answer == came,
            Err(_) => false,
        }
}

fn comes(alloc: Global, receiver: &mut Receiver, coming: &Coming) -> bool {
    let mut body = Bytes::new(alloc);
    body.add_all(coming.body).is_ok() && is_heard(alloc, receiver, coming.seq, &body, coming.came)
}

// Whether what an ack carries, behind its host, is this number.
fn is_number(args: &[Value], next: i64) -> bool {
    match args {
        [_, Value::Int(number)] => *number == next,
        _ => false,
    }
}

// Whether the ack that a purse pays says this number.
fn tells(alloc: Global, receiver: &Receiver, purse: &mut Purse, next: i64) -> bool {
    receiver.delivered().len() < 1_000
        && match receiver.ack(alloc, purse, Host(1)) {
            Ok(chunk) => is_number(chunk.chunk().args.as_slice(), next),
            Err(_) => false,
        }
}

fn come(alloc: Global, receiver: &mut Receiver, purse: &mut Purse, all: &[Coming]) -> bool {
    for coming in all {
        if !comes(alloc, receiver, coming)
            || receiver.delivered().len() != coming.delivered
            || !tells(alloc, receiver, purse, coming.next)
        {
            return false;
        }
    }
    true
}

// Whether messages come to a receiver so, and their acks leave a purse so much.
fn leave(alloc: Global, purse: &mut Purse, all: &[Coming], left: u32) -> bool {
    match Receiver::new(alloc) {
        Ok(mut receiver) => come(alloc, &mut receiver, purse, all) && purse.left() == left,
        Err(_) => false,
    }
}

#[test]
fn messages_wait_for_their_turn(rt: HostRuntime) {
    assert!(rt; leave(rt.alloc(), &mut Purse::of(65_535), &REORDERED, 65_527));
}

fn takes(alloc: Global, sender: &mut Sender, body: &Bytes, number: u64) -> bool {
    body.len() <= 4_096
        && sender.offered() < 1_000
        && match sender.offer(alloc, body) {
            Ok(given) => given == number,
            Err(_) => false,
        }
}

// Whether a message that is offered has this number.
fn offers(alloc: Global, sender: &mut Sender, text: &[u8], number: u64) -> bool {
    let mut body = Bytes::new(alloc);
    body.add_all(text).is_ok() && takes(alloc, sender, &body, number)
}

// Whether an ack is this to a sender, of which so many messages are acknowledged then.
fn hears(sender: &mut Sender, next: i64, ack: Ack, acked: u64) -> bool {
    sender.heard(next) == ack && sender.acked() == acked
}

fn moves_on(alloc: Global, sender: &mut Sender) -> bool {
    offers(alloc, sender, b"a", 1)
        && offers(alloc, sender, b"b", 2)
        && hears(sender, 1, Ack::Old, 0)
        && hears(sender, 3, Ack::Moved, 2)
}

fn moves(alloc: Global) -> bool {
    match Sender::new(alloc) {
        Ok(mut sender) => moves_on(alloc, &mut sender),
        Err(_) => false,
    }
}

#[test]
fn acks_move_the_sender(rt: HostRuntime) {
    assert!(rt; moves(rt.alloc()));
}
