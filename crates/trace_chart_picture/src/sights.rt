//! Where all lines are seen.
ghost use Rattle.std.specs.Prelude.{◌≡◌, ◌≤◌, length, IfOk, IfErr};
ghost use Rattle.trace_chart_picture.specs.Faults.{IsDrawFault};
ghost use Rattle.trace_chart_picture.specs.Hosts.{hosts_of};
ghost use Rattle.trace_chart_picture.specs.Sights as spec;
ghost use Rattle.trace_chart_picture.specs.Walks.{next};

use crate::drawing::{LineStyle, Point};
use crate::lanes::hosts_of;
use crate::line::Entry;
use crate::marks::DrawFault;
use crate::walk::{Journey, LinePlace, TraceWalk, far_end};
use std::alloc::Global;

/// How a line is seen.
#[derive(Clone, Copy)]
pub(crate) struct Sight {
    pub begins: bool,
    pub at: Point,
    pub to: Point,
    pub stroke: LineStyle,
    pub is_outside: bool,
}

/// Where all lines stand, and the ways of all frames.
#[derive(Drop)]
pub(crate) struct Sights {
    pub hosts: Vec<u32>,
    pub walk: TraceWalk,
    /// Whether the trace is that of one node's log.
    pub is_log: bool,
}

/// Half a column to the right of a host. What comes from the margin stays there.
fn beside(from: u32) -> u32
    ensures { result ≡ spec.beside from }
{
    if from == 0 {
        return 0;
    }
    from.saturating_add(1)
}

impl Sights {
    /// Goes through all lines.
    pub fn over(alloc: Global, entries: &[Entry], is_log: bool) -> Result<Sights, DrawFault>
        ensures seen { IfOk result (λ s. spec.Sees entries.now is_log s) }
        ensures fault { IfErr result (λ e. IsDrawFault entries.now e) }
    {
        let hosts = hosts_of(alloc, entries)?;
        let mut walk = TraceWalk::new(alloc);
        walk.go(hosts.as_slice(), entries)?;
        Ok(Sights {
            hosts,
            walk,
            is_log,
        })
    }

    /// The hosts that have columns, in rising order.
    pub fn hosts(&self) -> &[u32]
        ensures { result.now ≡ self.now.hosts.items }
    {
        self.hosts.as_slice()
    }

    /// The row below the last line.
    pub fn bottom(&self) -> u32
        ensures { result ≡ next self.now.walk.row }
    {
        self.walk.row.saturating_add(1)
    }

    /// Half of the way from a sender over its device, as far as is known.
    fn middle(&self, from: u32, device: u32) -> u32
        ensures { result ≡ spec.middle self.now.walk from device }
    {
        match far_end(self.walk.links.as_slice(), from, device) {
            Some(far) => from / 2 + far / 2 + 1,
            None => beside(from),
        }
    }

    /// Where an arrow ends that leads half of the way.
    fn half_way(&self, journey: Journey) -> Point
        ensures { result ≡ spec.half_way self.now.walk journey }
    {
        Point {
            across: self.middle(journey.from.across, journey.device),
            row: journey.to.row,
        }
    }

    /// The head of a frame's arrow.
    fn head(&self, journey: Journey) -> Point
        ensures { result ≡ spec.head self.now.walk journey }
    {
        match journey.stroke {
            LineStyle::Lost | LineStyle::Open => self.half_way(journey),
            LineStyle::Packet | LineStyle::Advert | LineStyle::Forged => journey.to,
        }
    }

    /// The way of the frame at this place on the wire.
    fn journey(&self, frame: Option<usize>) -> Option<Journey>
        ensures { result ≡ spec.journey self.now.walk frame }
    {
        match frame {
            Some(i) => match self.walk.journeys.get(i) {
                Some(j) => Some(*j),
                None => None,
            },
            None => None,
        }
    }

    /// The arrow of a frame that comes from outside the network.
    fn outside_stroke(&self) -> LineStyle
        ensures { result ≡ spec.outside_stroke self.now.is_log }
    {
        if self.is_log {
            LineStyle::Packet
        } else {
            LineStyle::Forged
        }
    }

    /// A line that is about no frame whose line on the wire is there. An arrival is then from outside, unless its event
    /// takes a frame off the wire.
    fn alone(&self, place: LinePlace) -> Sight
        ensures { result ≡ spec.alone self.now.is_log place }
    {
        Sight {
            begins: place.begins,
            at: place.at,
            to: place.at,
            stroke: self.outside_stroke(),
            is_outside: !place.is_off,
        }
    }

    /// A line that is about this frame on the wire.
    fn along(&self, place: LinePlace, journey: Journey) -> Sight
        ensures { result ≡ spec.along self.now.walk place journey }
    {
        Sight {
            begins: place.begins,
            at: place.at,
            to: self.head(journey),
            stroke: journey.stroke,
            is_outside: false,
        }
    }

    /// Where the line at place `i` stands.
    fn place(&self, i: usize) -> LinePlace
        ensures { result ≡ spec.place_at self.now.walk i }
    {
        match self.walk.places.get(i) {
            Some(place) => *place,
            None => LinePlace {
                at: Point { across: 0, row: 0 },
                begins: false,
                is_off: false,
                frame: None,
            },
        }
    }

    /// How the line at place `i` is seen.
    pub fn sight(&self, i: usize) -> Sight
        ensures { result ≡ spec.sight_at self.now.walk self.now.is_log i }
    {
        let place = self.place(i);
        match self.journey(place.frame) {
            Some(journey) => self.along(place, journey),
            None => self.alone(place),
        }
    }
}
