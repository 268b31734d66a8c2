// Frames are written again as they were read.

use packet_frame::{CheckedPacket, Frame, get_frame, put_advert, put_ask, put_packet};
use plan_base::{Bytes, NoMemory};
use std::alloc::Global;

// A packet of family 1.1 from host 1 to host 2 with bound 9.
static PACKET: &[u8] =
    b"PLAN\x01\x01\x00\x00\x00\x01\x00\x00\x00\x00\x00\x00\x00\x01\x00\x00\x00\x02\x00\x00\x00\x09\x0cdefaultRoute\x00\x00\x01\x01\x66\x00\x00\x20\x01\x66\x00";

// A packet of family 2.1 to host 1 with bound 3.
static ARRIVED: &[u8] =
    b"PLAN\x01\x01\x00\x00\x00\x02\x00\x00\x00\x00\x00\x00\x00\x01\x00\x00\x00\x01\x00\x00\x00\x03\x0cdefaultRoute\x00\x00\x01\x01\x66\x00\x00\x20\x01\x66\x00";

// A packet of family 2.2 to host 2 with bound 2, and as a host on its way sends it on.
static PASSING: &[u8] =
    b"PLAN\x01\x01\x00\x00\x00\x02\x00\x00\x00\x00\x00\x00\x00\x02\x00\x00\x00\x02\x00\x00\x00\x02\x0cdefaultRoute\x00\x00\x01\x01\x66\x00\x00\x20\x01\x66\x00";

static SENT_ON: &[u8] =
    b"PLAN\x01\x01\x00\x00\x00\x02\x00\x00\x00\x00\x00\x00\x00\x02\x00\x00\x00\x02\x00\x00\x00\x01\x0cdefaultRoute\x00\x00\x01\x01\x66\x00\x00\x20\x01\x66\x00";

// The routes of host 2: host 1 at cost 1, itself at 0, host 3 at cost 1.
static ADVERT: &[u8] =
    b"PLAN\x01\x02\x00\x00\x00\x02\x00\x03\x00\x00\x00\x01\x00\x00\x00\x01\x00\x00\x00\x02\x00\x00\x00\x00\x00\x00\x00\x03\x00\x00\x00\x01";

// An ask with bound 10.
static ASK: &[u8] = b"PLAN\x01\x03\x00\x00\x00\x0a\x00\x00\x01\x01\x66\x00\x00\x20\x01\x66\x00";

fn is_written(written: Result<Bytes, NoMemory>, wanted: &[u8]) -> bool {
    match written {
        Ok(b) => b.as_slice() == wanted,
        Err(_) => false,
    }
}

fn packet_is(alloc: Global, packet: &CheckedPacket, bound: u32, wanted: &[u8]) -> bool {
    bound <= 65_535
        && packet.handler().is_none()
        && is_written(put_packet(alloc, packet, bound), wanted)
}

// Whether a packet that is read is these bytes where it is written with a bound.
fn packet_again(alloc: Global, bytes: &[u8], bound: u32, wanted: &[u8]) -> bool {
    match get_frame(alloc, bytes, None) {
        Ok(Frame::Packet(packet)) => packet_is(alloc, &packet, bound, wanted),
        _ => false,
    }
}

fn advert_again(alloc: Global, bytes: &[u8]) -> bool {
    match get_frame(alloc, bytes, None) {
        Ok(Frame::Advert(a)) => is_written(put_advert(alloc, &a), bytes),
        _ => false,
    }
}

fn ask_again(alloc: Global, bytes: &[u8]) -> bool {
    match get_frame(alloc, bytes, None) {
        Ok(Frame::Ask(_, c)) => is_written(put_ask(alloc, 10, &c), bytes),
        _ => false,
    }
}

// Each frame is read whole and written again as it was.
#[test]
fn frames_are_written_as_they_were_read(rt: HostRuntime) {
    assert!(rt; packet_again(rt.alloc(), PACKET, 9, PACKET));
    assert!(rt; packet_again(rt.alloc(), ARRIVED, 3, ARRIVED));
    assert!(rt; packet_again(rt.alloc(), PASSING, 2, PASSING));
    assert!(rt; advert_again(rt.alloc(), ADVERT));
    assert!(rt; ask_again(rt.alloc(), ASK));
}

// A packet that goes on has its bound less one, and nothing else changed.
#[test]
fn a_packet_goes_on(rt: HostRuntime) {
    assert!(rt; packet_again(rt.alloc(), PASSING, 1, SENT_ON));
}
