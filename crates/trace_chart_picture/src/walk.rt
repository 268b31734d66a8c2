//! Follows the frames of a trace from line to line.
ghost use Rattle.std.specs.Prelude.{◌≡◌, ◌≤◌, ◌∷◌, ◌++◌, length, OnOk, IfOk};
ghost use Rattle.trace_chart_picture.specs.Walks as spec;

use crate::drawing::{LineStyle, Point};
use crate::lanes::column;
use crate::line::{Entry, Line, What};
use containers::Items;
use plan_base::{Dev, Host};
use std::alloc::{AllocError, Global};

/// The way of a frame.
#[derive(Clone, Copy, Drop)]
pub(crate) struct Journey {
    /// The frame's number, as its line on the wire gives it.
    pub number: u32,
    pub from: Point,
    pub to: Point,
    pub device: u32,
    /// What was sent.
    pub what: LineStyle,
    /// How the way ended; `Open` as long as it has not.
    pub stroke: LineStyle,
}

/// Where the frames of a device come out.
#[derive(Clone, Copy, Drop)]
pub(crate) struct TraceLink {
    pub across: u32,
    pub device: u32,
    pub far: u32,
}

/// Where a line stands, and which frame it is about, by the order on the wire.
#[derive(Clone, Copy, Drop)]
pub(crate) struct LinePlace {
    pub at: Point,
    pub begins: bool,
    /// Whether its event takes a frame off the wire.
    pub is_off: bool,
    pub frame: Option<usize>,
}

/// The most links that are remembered. Where the far end of a link isn't known, a frame that was
/// lost on it is drawn to the right.
const MOST_LINKS: usize = 1_024;

/// The lines gone through so far.
#[derive(Drop)]
pub(crate) struct TraceWalk {
    /// Where each line stands.
    pub places: Items<LinePlace>,
    /// The frames by the order of their lines on the wire. Some of a trace's may be missing.
    pub journeys: Items<Journey>,
    pub links: Items<TraceLink>,
    pub row: u32,
    pub event: u64,
    pub is_row_used: bool,
    /// The column from which this event sent a frame: 0, the margin, as long as none is known.
    pub sender: u32,
    pub device: u32,
    pub what: LineStyle,
    /// Whether this event takes a frame off the wire, known or not.
    pub is_off: bool,
    /// The frame that left the wire in this event, or came out and stayed there.
    pub taken: Option<usize>,
}

/// Whether a line takes a row of its own.
fn takes_row(line: &Line) -> bool
    ensures { result ≡ spec.takes_row line.now }
{
    match line {
        Line::Sent(..) | Line::Wire(_) | Line::WireShown(..) | Line::Off(_) => false,
        Line::Injected(..)
        | Line::Forged(..)
        | Line::Arrived(..)
        | Line::Asked(_)
        | Line::Printed(..)
        | Line::Delivered(..)
        | Line::Gave(..)
        | Line::Raised(..)
        | Line::Spent(..)
        | Line::Handled(..)
        | Line::Queued(..)
        | Line::Dropped(..)
        | Line::Refused(..)
        | Line::Advert(..)
        | Line::Heard(..)
        | Line::Ticked(..)
        | Line::Again(_)
        | Line::Lost(..)
        | Line::LostAdvert
        | Line::Nothing => true,
    }
}

/// What was sent, as an arrow.
fn stroke_of(what: What) -> LineStyle
    ensures { result ≡ spec.stroke_of what }
{
    match what {
        What::Packet(_) => LineStyle::Packet,
        What::Advert => LineStyle::Advert,
    }
}

/// The place of the last frame of this number.
#[tactic(auto, using(crate::proofs::Frames::frame_found, crate::proofs::Frames::frame_passed))]
fn frame_of(journeys: &[Journey], number: u32) -> Option<usize>
    ensures { result ≡ spec.frame_of number journeys.now }
{
    let mut i = journeys.len();
    while i > 0 {
        i -= 1;
        if journeys[i].number == number {
            return Some(i);
        }
    }
    None
}

impl TraceWalk {
    /// No line yet.
    pub fn new(alloc: Global) -> TraceWalk
        ensures { result ≡ spec.start }
    {
        TraceWalk {
            places: Items::new(alloc),
            journeys: Items::new(alloc),
            links: Items::new(alloc),
            row: 0,
            event: 0,
            is_row_used: false,
            sender: 0,
            device: 0,
            what: LineStyle::Advert,
            is_off: false,
            taken: None,
        }
    }

    fn next_row(&mut self)
        ensures { self.new ≡ spec.next_row self.old }
    {
        self.row = self.row.saturating_add(1);
        self.is_row_used = false;
    }

    /// Goes down where another event begins, and answers whether one does.
    fn begin(&mut self, event: u64) -> bool
        ensures begins { result ≡ spec.begins event self.old }
        ensures state { self.new ≡ spec.begin event self.old }
    {
        if event == self.event {
            return false;
        }
        self.event = event;
        self.sender = 0;
        self.device = 0;
        self.what = LineStyle::Advert;
        self.is_off = false;
        self.taken = None;
        self.next_row();
        true
    }

    /// Takes a row for a line that has one of its own.
    fn take_row(&mut self, line: &Line)
        ensures { self.new ≡ spec.take_row line.now self.old }
    {
        if !takes_row(line) {
            return;
        }
        if self.is_row_used {
            self.next_row();
        }
        self.is_row_used = true;
    }

    /// Remembers where the frames of a device come out, once.
    fn add_link(&mut self, across: u32, device: u32, far: u32) -> Result<(), AllocError>
        ensures { OnOk result (self.new ≡ spec.add_link across device far self.old) }
    {
        if self.links.len() >= MOST_LINKS {
            return Ok(());
        }
        if far_end(self.links.as_slice(), across, device).is_some() {
            return Ok(());
        }
        self.links.add(TraceLink {
            across,
            device,
            far,
        })?;
        Ok(())
    }

    /// A place in the row, about this frame.
    fn place(&self, across: u32, frame: Option<usize>) -> LinePlace
        ensures { result ≡ spec.here across frame self.now }
    {
        LinePlace {
            at: Point {
                across,
                row: self.row,
            },
            begins: false,
            is_off: self.is_off,
            frame,
        }
    }

    /// Puts the frame that this event sent onto the wire under this number. One of which no line says from where it was
    /// sent comes from the margin.
    fn set_off(&mut self, number: u32) -> Result<LinePlace, AllocError>
        ensures place { IfOk result (λ p. p ≡ spec.set_off_place self.old) }
        ensures state { OnOk result (self.new ≡ spec.set_off number self.old) }
    {
        let place = self.place(self.sender, Some(self.journeys.len()));
        let to = Point {
            across: self.sender,
            row: self.row.saturating_add(1),
        };
        self.journeys.add(Journey {
            number,
            from: place.at,
            to,
            device: self.device,
            what: self.what,
            stroke: LineStyle::Open,
        })?;
        Ok(place)
    }

    /// The frame that left the wire, where its line on the wire was among the lines.
    fn taken(&self) -> Option<Journey>
        ensures { result ≡ spec.taken_journey self.now }
    {
        match self.taken {
            Some(frame) => match self.journeys.get(frame) {
                Some(journey) => Some(*journey),
                None => None,
            },
            None => None,
        }
    }

    /// The frame that left the wire went this way.
    fn set_taken(&mut self, journey: Journey)
        ensures { self.new ≡ spec.set_taken journey self.old }
    {
        if let Some(frame) = self.taken {
            if frame < self.journeys.len() {
                self.journeys.set(frame, journey);
            }
        }
    }

    /// A frame on its way came out in this column, over this device.
    fn arrive(&mut self, journey: Journey, across: u32, device: u32) -> Result<(), AllocError>
        ensures { OnOk result (self.new ≡ spec.arrive journey across device self.old) }
    {
        let to = Point {
            across,
            row: self.row,
        };
        self.set_taken(Journey {
            to,
            stroke: journey.what,
            ..journey
        });
        if journey.from.across == 0 {
            return Ok(());
        }
        self.add_link(journey.from.across, journey.device, across)?;
        self.add_link(across, device, journey.from.across)
    }

    /// The frame came out here. Its arrow ends where it came out first.
    fn come_out(&mut self, across: u32, device: u32) -> Result<LinePlace, AllocError>
        ensures place { IfOk result (λ p. p ≡ spec.here across self.old.taken self.old) }
        ensures state { OnOk result (self.new ≡ spec.come_out across device self.old) }
    {
        let place = self.place(across, self.taken);
        if let Some(journey) = self.taken() {
            if is_open(journey) {
                self.arrive(journey, across, device)?;
            }
        }
        Ok(place)
    }

    /// Where a loss stands. Where the frame came out before, its arrow stays, and the cross stands where it would have
    /// come out again.
    fn loss_place(&self) -> LinePlace
        ensures { result ≡ spec.loss_place self.now }
    {
        match self.taken() {
            Some(journey) => {
                if is_open(journey) {
                    self.place(0, self.taken)
                } else {
                    self.place(journey.to.across, None)
                }
            }
            None => self.place(0, self.taken),
        }
    }

    /// The frame that left the wire was lost. The label stands in the next row.
    fn vanish(&mut self)
        ensures { self.new ≡ spec.vanish self.old }
    {
        if let Some(journey) = self.taken() {
            if is_open(journey) {
                let to = Point {
                    across: 0,
                    row: self.row,
                };
                self.set_taken(Journey {
                    to,
                    stroke: LineStyle::Lost,
                    ..journey
                });
            }
        }
        self.next_row();
        self.is_row_used = true;
    }

    /// A frame leaves its queue.
    fn leave(&mut self, across: u32, device: u32, what: What)
        ensures { self.new ≡ spec.leave across device what self.old }
    {
        self.sender = across;
        self.device = device;
        self.what = stroke_of(what);
    }

    /// Takes frame `number` off the wire.
    fn take_off(&mut self, number: u32)
        ensures { self.new ≡ spec.take_off number self.old }
    {
        self.is_off = true;
        self.taken = frame_of(self.journeys.as_slice(), number);
    }

    /// The column from which the frame came that came out, and stays on the wire.
    fn taken_from(&self) -> u32
        ensures { result ≡ spec.taken_from self.now }
    {
        match self.taken() {
            Some(journey) => journey.from.across,
            None => 0,
        }
    }

    /// Goes on by what a line says of frames, and answers where the line stands.
    fn go_by(&mut self, hosts: &[u32], line: &Line) -> Result<LinePlace, AllocError>
        requires { length hosts.now ≤ 64 }
        ensures place { IfOk result (λ p. p ≡ spec.place_of hosts.now line.now self.old) }
        ensures state { OnOk result (self.new ≡ spec.go_by hosts.now line.now self.old) }
    {
        match line {
            Line::Sent(h, Dev(d), what) => {
                self.leave(column(hosts, h.0), *d, *what);
                Ok(self.place(self.sender, None))
            }
            Line::Wire(number) | Line::WireShown(number, _) => self.set_off(*number),
            Line::Off(number) => {
                self.take_off(*number);
                Ok(self.place(0, None))
            }
            Line::Again(number) => {
                self.take_off(*number);
                Ok(self.place(self.taken_from(), None))
            }
            Line::Arrived(h, Dev(d)) => self.come_out(column(hosts, h.0), *d),
            Line::Lost(..) | Line::LostAdvert => {
                let place = self.loss_place();
                self.vanish();
                Ok(place)
            }
            Line::Nothing => Ok(self.place(0, None)),
            Line::Injected(h, ..)
            | Line::Forged(h, ..)
            | Line::Asked(h)
            | Line::Printed(h, _)
            | Line::Delivered(h, ..)
            | Line::Gave(h, ..)
            | Line::Raised(h, ..)
            | Line::Spent(h, ..)
            | Line::Handled(h, ..)
            | Line::Queued(h, ..)
            | Line::Dropped(h, ..)
            | Line::Refused(h, _)
            | Line::Advert(h, _)
            | Line::Heard(h, _)
            | Line::Ticked(h, _) => Ok(self.place(column(hosts, h.0), None)),
        }
    }

    /// Goes on by a line.
    fn step(&mut self, hosts: &[u32], entry: &Entry) -> Result<(), AllocError>
        requires { length hosts.now ≤ 64 }
        ensures { OnOk result (self.new ≡ spec.step hosts.now entry.now self.old) }
    {
        let begins = self.begin(entry.event);
        self.take_row(&entry.line);
        let place = self.go_by(hosts, &entry.line)?;
        self.places.add(LinePlace { begins, ..place })?;
        Ok(())
    }

    /// Goes through all lines, between the columns of these hosts.
    pub fn go(&mut self, hosts: &[u32], entries: &[Entry]) -> Result<(), AllocError>
        requires { length hosts.now ≤ 64 }
        ensures { OnOk result (self.new ≡ spec.go hosts.now entries.now self.old) }
    {
        for entry in entries {
            self.step(hosts, entry)?;
        }
        Ok(())
    }
}

/// Whether a frame has neither come out nor been lost.
fn is_open(journey: Journey) -> bool
    ensures { result ≡ spec.is_open journey.stroke }
{
    match journey.stroke {
        LineStyle::Open => true,
        LineStyle::Packet | LineStyle::Advert | LineStyle::Lost | LineStyle::Forged => false,
    }
}

/// Where the frames of a device come out, where that is known.
pub(crate) fn far_end(links: &[TraceLink], across: u32, device: u32) -> Option<u32>
    ensures { result ≡ spec.far_end across device links.now }
{
    let mut rest = links;
    while let [link, more @ ..] = rest {
        if link.across == across && link.device == device {
            return Some(link.far);
        }
        rest = more;
    }
    None
}
