//! The public call: the chart of a trace.
ghost use Rattle.std.specs.Prelude.{◌≡◌, IfOk, IfErr};
ghost use Rattle.trace_chart_picture.specs.Charts.{IsChart};
ghost use Rattle.trace_chart_picture.specs.Faults.{IsChartFault};
ghost use Rattle.trace_chart_picture.specs.Pictures.{picture_text};

use crate::drawing::Drawing;
use crate::marks::{DrawFault, draw};
use crate::picture::put_picture;
use crate::trace::{TraceFault, read_trace};
use plan_base::{Bytes, NoMemory};
use std::alloc::Global;

/// The most bytes of a trace.
pub const MOST_BYTES: usize = 16_777_216;

/// Why bytes have no chart.
#[derive(Clone, Copy, PartialEq, Eq)]
pub enum ChartFault {
    /// The first line that is no line of a trace there, from 1.
    BadLine(u64),
    /// There are more than [`MOST_BYTES`] bytes.
    TooLong,
    /// The trace names more than [`crate::MOST_HOSTS`] hosts.
    TooManyHosts,
    /// Memory was refused.
    NoMemory,
}

impl From<TraceFault> for ChartFault {
    ghost use Rattle.trace_chart_picture.specs.Turned.{as_trace};

    ghost from_gives = { λ f r. r ≡ as_trace f };

    fn from(fault: TraceFault) -> ChartFault {
        match fault {
            TraceFault::BadLine(line) => ChartFault::BadLine(line),
            TraceFault::NoMemory => ChartFault::NoMemory,
        }
    }
}

impl From<DrawFault> for ChartFault {
    ghost use Rattle.trace_chart_picture.specs.Turned.{as_draw};

    ghost from_gives = { λ f r. r ≡ as_draw f };

    fn from(fault: DrawFault) -> ChartFault {
        match fault {
            DrawFault::TooManyHosts => ChartFault::TooManyHosts,
            DrawFault::NoMemory => ChartFault::NoMemory,
        }
    }
}

impl From<NoMemory> for ChartFault {
    ghost use Rattle.trace_chart_picture.specs.declared.charts.ChartFault.TheVariants as chart;

    ghost from_gives = { λ _ r. r ≡ chart.NoMemory };

    fn from(_refused: NoMemory) -> ChartFault {
        ChartFault::NoMemory
    }
}

/// The SVG text of a drawing.
fn drawing_text(alloc: Global, d: &Drawing) -> Result<Bytes, NoMemory>
    ensures { IfOk result (λ picture. picture ≡ picture_text d.now) }
{
    let mut picture = Bytes::new(alloc);
    put_picture(alloc, &mut picture, d)?;
    Ok(picture)
}

/// The chart of the trace that these bytes are, as SVG. Each refusal has its cause, but for a failed
/// allocation.
pub fn chart(alloc: Global, bytes: &[u8]) -> Result<Bytes, ChartFault>
    ensures chart { IfOk result (λ picture. IsChart bytes.now picture) }
    ensures fault { IfErr result (λ e. IsChartFault bytes.now e) }
{
    if bytes.len() > MOST_BYTES {
        return Err(ChartFault::TooLong);
    }
    let trace = read_trace(alloc, bytes)?;
    let drawing = draw(alloc, &trace)?;
    let picture = drawing_text(alloc, &drawing)?;
    Ok(picture)
}
