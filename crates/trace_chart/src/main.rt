//! The program `trace_chart`: a trace from the standard input, its chart to the standard output.
#![tactic(auto)]

use plan_base::Bytes;
use std::io::{self, Read, Write};
use std::process::ExitCode;
use trace_chart_picture::{ChartFault, MOST_BYTES, chart};

/// The exit code where the trace has no chart.
const REFUSED: u8 = 2;
/// The exit code where the input can't be read.
const READ_FAULT: u8 = 3;
/// The exit code where the output can't be written.
const WRITE_FAULT: u8 = 4;
/// The exit code where an allocation failed.
const NO_MEMORY: u8 = 7;

/// The bytes of the standard input, and one past the limit of a trace at most.
fn read_all(rt: &HostRuntime) -> io::Result<Vec<u8>> {
    let mut bytes = Vec::new(rt.alloc());
    let limit = MOST_BYTES as u64 + 1;
    rt.stdin().take(limit).read_to_end(&mut bytes)?;
    Ok(bytes)
}

fn write_all(rt: &HostRuntime, picture: &Bytes) -> io::Result<()> {
    let mut out = rt.stdout();
    out.write_all(picture.as_slice())?;
    out.flush()
}

/// Says why there is no chart.
fn refuse(rt: &HostRuntime, fault: ChartFault) -> u8 {
    let said = match fault {
        ChartFault::BadLine(line) => eprintln!(rt; "trace_chart: line {line}: BadLine"),
        ChartFault::TooLong => eprintln!(rt; "trace_chart: TooLong"),
        ChartFault::TooManyHosts => eprintln!(rt; "trace_chart: TooManyHosts"),
        ChartFault::NoMemory => eprintln!(rt; "trace_chart: no memory"),
    };
    match (said, fault) {
        (Err(_), _) => WRITE_FAULT,
        (_, ChartFault::NoMemory) => NO_MEMORY,
        _ => REFUSED,
    }
}

fn run(rt: &HostRuntime) -> u8 {
    let Ok(bytes) = read_all(rt) else {
        return READ_FAULT;
    };
    match chart(rt.alloc(), bytes.as_slice()) {
        Ok(picture) => match write_all(rt, &picture) {
            Ok(()) => 0,
            Err(_) => WRITE_FAULT,
        },
        Err(fault) => refuse(rt, fault),
    }
}

fn main(rt: HostRuntime) -> ExitCode {
    ExitCode::from(run(&rt))
}
