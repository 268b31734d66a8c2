//! Places the mark of each line.
ghost use Rattle.std.specs.Prelude.{◌≡◌, ◌≤◌, length, IfOk, IfErr};
ghost use Rattle.trace_chart_picture.specs.Kinds.{label_text};
ghost use Rattle.trace_chart_picture.specs.Marks as spec;
ghost use Rattle.trace_chart_picture.specs.Sights.{Sees};
ghost use Rattle.trace_chart_picture.specs.Faults.{IsDrawFault};
ghost use Rattle.trace_chart_picture.specs.Charts.{Draws};

use crate::drawing::{Drawing, Kind, Mark, Point};
use crate::lanes::lanes_of;
use crate::line::{Entry, Line, Row, Trace};
use crate::sights::{Sight, Sights};
use crate::words::{kind_of, put_label};
use containers::Items;
use plan_base::{Bytes, NoMemory};
use std::alloc::{AllocError, Global};

/// Why a trace isn't drawn.
#[derive(Clone, Copy, PartialEq, Eq)]
pub enum DrawFault {
    /// It names more than [`crate::MOST_HOSTS`] hosts.
    TooManyHosts,
    /// Memory was refused.
    NoMemory,
}

impl From<AllocError> for DrawFault {
    ghost use Rattle.trace_chart_picture.specs.declared.marks.DrawFault.TheVariants as fault;

    ghost from_gives = { λ _ r. r ≡ fault.NoMemory };

    fn from(_refused: AllocError) -> DrawFault {
        DrawFault::NoMemory
    }
}

impl From<NoMemory> for DrawFault {
    ghost use Rattle.trace_chart_picture.specs.declared.marks.DrawFault.TheVariants as fault;

    ghost from_gives = { λ _ r. r ≡ fault.NoMemory };

    fn from(_refused: NoMemory) -> DrawFault {
        DrawFault::NoMemory
    }
}

/// The label of a line.
fn label_of(alloc: Global, line: &Line) -> Result<Bytes, NoMemory>
    ensures { IfOk result (λ label. label ≡ label_text line.now) }
{
    let mut label = Bytes::new(alloc);
    put_label(alloc, &mut label, line)?;
    Ok(label)
}

/// Whether a frame is drawn as one that comes from outside or goes there.
fn is_outside(kind: Kind, sight: Sight, is_log: bool) -> bool
    ensures { result ≡ spec.is_outside kind sight is_log }
{
    match kind {
        Kind::Arrival => sight.is_outside,
        Kind::Sending => is_log,
        Kind::Frame
        | Kind::Loss
        | Kind::Value
        | Kind::Exception
        | Kind::Spent
        | Kind::Dropped
        | Kind::Note
        | Kind::Start
        | Kind::Forgery
        | Kind::Aside
        | Kind::Unseen => false,
    }
}

/// Where a mark stands: a cross at the head of the arrow.
fn stand(kind: Kind, sight: Sight) -> Point
    ensures { result ≡ spec.stand kind sight }
{
    match kind {
        Kind::Loss => sight.to,
        Kind::Frame
        | Kind::Arrival
        | Kind::Sending
        | Kind::Value
        | Kind::Exception
        | Kind::Spent
        | Kind::Dropped
        | Kind::Note
        | Kind::Start
        | Kind::Forgery
        | Kind::Aside
        | Kind::Unseen => sight.at,
    }
}

/// The mark of a line that is seen so.
fn mark_of(alloc: Global, entry: &Entry, sight: Sight, is_log: bool) -> Result<Mark, NoMemory>
    ensures { IfOk result (λ m. m ≡ spec.mark_of entry.now sight is_log) }
{
    let kind = kind_of(&entry.line);
    let label = label_of(alloc, &entry.line)?;
    Ok(Mark {
        kind,
        label,
        event: entry.event,
        begins: sight.begins,
        at: stand(kind, sight),
        to: sight.to,
        stroke: sight.stroke,
        is_outside: is_outside(kind, sight, is_log),
    })
}

/// The marks of all lines.
fn marks_of(alloc: Global, entries: &[Entry], sights: &Sights) -> Result<Items<Mark>, NoMemory>
    ensures { IfOk result (λ ms. ms ≡ spec.marks_from sights.now.walk sights.now.is_log
        0 entries.now) }
{
    let mut marks = Items::new(alloc);
    let mut i: usize = 0;
    for entry in entries {
        let mark = mark_of(alloc, entry, sights.sight(i), sights.is_log)?;
        marks.add(mark)?;
        i += 1;
    }
    Ok(marks)
}

/// The width of so many columns.
fn width_of(lanes: usize) -> u64
    requires { lanes ≤ 64 }
    ensures { result ≡ spec.width_of lanes }
{
    (lanes as u64 * 220 + 140).max(830)
}

/// The height of so many rows, and of the rows of a ledger below.
fn height_of(bottom: u32, ledger: &Option<Items<Row>>) -> u64
    ensures { result ≡ spec.height_of bottom ledger.now }
{
    let lines = u64::from(bottom) * 18 + 90;
    match ledger {
        Some(rows) => (rows.len() as u64)
            .saturating_mul(18)
            .saturating_add(lines + 50),
        None => lines,
    }
}

/// The rows of a ledger, copied.
fn copy_rows(alloc: Global, ledger: &Option<Items<Row>>) -> Result<Option<Items<Row>>, AllocError>
    ensures { IfOk result (λ copy. copy ≡ ledger.now) }
{
    match ledger {
        Some(rows) => Ok(Some(Items::from_slice(alloc, rows.as_slice())?)),
        None => Ok(None),
    }
}

/// The chart of a trace whose lines are seen so.
fn drawing_of(alloc: Global, trace: &Trace, sights: &Sights) -> Result<Drawing, DrawFault>
    requires { length sights.now.hosts.items ≤ 64 }
    ensures drawn { IfOk result (λ d. d ≡ spec.drawing_by sights.now.hosts.items sights.now.walk
        sights.now.is_log trace.now) }
    ensures fault { IfErr result (λ e. IsDrawFault trace.now.entries e) }
{
    let entries = trace.entries.as_slice();
    let lanes = lanes_of(alloc, sights.hosts())?;
    let ledger = copy_rows(alloc, &trace.ledger)?;
    let marks = marks_of(alloc, entries, sights)?;
    let width = width_of(sights.hosts().len());
    let bottom = sights.bottom();
    let height = height_of(bottom, &trace.ledger);
    Ok(Drawing {
        lanes,
        marks,
        bottom,
        ledger,
        width,
        height,
    })
}

/// Whether a trace with this ledger is that of one node's log.
fn is_log(ledger: &Option<Items<Row>>) -> bool
    ensures { result ≡ spec.is_log ledger.now }
{
    match ledger {
        Some(_) => false,
        None => true,
    }
}

/// The chart of a trace. It has as many arrows as frames went onto the wire, as many crosses as
/// frames were lost, and as many signs of ends as visits ended. It is refused where more than
/// [`crate::MOST_HOSTS`] hosts are named, and else only for a failed allocation.
#[tactic(auto, using(crate::proofs::Counts::draws))]
pub fn draw(alloc: Global, trace: &Trace) -> Result<Drawing, DrawFault>
    ensures drawn { IfOk result (λ d. Draws trace.now d) }
    ensures fault { IfErr result (λ e. IsDrawFault trace.now.entries e) }
{
    let sights = Sights::over(alloc, trace.entries.as_slice(), is_log(&trace.ledger))?;
    drawing_of(alloc, trace, &sights)
}
