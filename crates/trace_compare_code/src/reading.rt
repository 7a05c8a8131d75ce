// The lines of a trace, each read once: the datagram's number and the place where the line begins are kept (rules 22.13, 22.15 and 22.21).
ghost use Rattle.std.specs.Prelude.{◌≡◌, [], ◌<◌, length};
ghost use Rattle.line.specs.Lines.{lines_from};
ghost use Rattle.trace_compare.specs.Traces.{datagram_of, datagram_in};
ghost use Rattle.trace_compare_code.specs.Lines.{LineCut, held_outcome, number_told, RoomFor, KeepsLine, RoomForLines, ReadsTrace};

use datagram::Datagram;
use length::Refusal;
use line_code::find_feed;
use line_hex::hex_to_octets;
use trace_compare::TraceRefusal;

// Where a line ends, and where the next one begins.
#[derive(Drop)]
pub struct LineAt {
    pub end: usize,
    pub next: usize,
}

// The line that begins at the place `at` of a trace.
pub fn line_at(trace: &[u8], at: usize) -> LineAt
    requires { at < length trace.now }
    ensures { LineCut trace.now at result.end result.next }
{
    let rest = &trace[at..];
    let stop = find_feed(rest);
    let end = at + stop;
    let next = if stop < rest.len() { end + 1 } else { end };
    LineAt { end, next }
}

// How many lines a trace has.
pub fn count_lines(trace: &[u8]) -> usize
    ensures { result ≡ length (lines_from [] trace.now) }
{
    let mut count = 0;
    let mut at = 0;
    // The place moves past the line that was found.
    while at < trace.len() {
        let line = line_at(trace, at);
        at = line.next;
        count += 1;
    }
    count
}

// The number of the datagram that some octets hold.
fn read_octets(octets: &[u8]) -> Result<u16, Refusal>
    ensures { held_outcome result ≡ number_told (datagram_of octets.now) }
{
    Ok(datagram_reader::read(octets)?.number)
}

// The number of the datagram that a line holds.
fn read_line(line: &[u8]) -> Result<u16, Refusal>
    ensures { held_outcome result ≡ number_told (datagram_in line.now) }
{
    let mut work = [0u8; Datagram::LIMIT];
    let size = hex_to_octets(line, &mut work)?;
    read_octets(&work[..size])
}

// Keeps the number and the place of a line that begins at `at`, behind those already kept, and returns how many are kept then. An empty
// line is skipped (rule 22.13).
fn keep_line(
    line: &[u8],
    at: usize,
    numbers: &mut [u16],
    starts: &mut [usize],
    count: usize,
) -> Result<usize, Refusal>
    requires { RoomFor count numbers.old starts.old }
    ensures { KeepsLine line.now at numbers.old numbers.new starts.old
        starts.new count result }
{
    if line.len() == 0 {
        return Ok(count);
    }
    let number = read_line(line)?;
    numbers[count] = number;
    starts[count] = at;
    Ok(count + 1)
}

// Reads all lines of a trace, the first or the second, as `which` says, and returns how many datagrams it has. A refusal names the trace
// and the line (rule 22.15).
pub fn read_trace(
    which: u8,
    trace: &[u8],
    numbers: &mut [u16],
    starts: &mut [usize],
) -> Result<usize, TraceRefusal>
    requires { RoomForLines trace.now numbers.old starts.old }
    ensures { ReadsTrace which trace.now numbers.new starts.new result }
{
    let mut count = 0;
    let mut line = 1;
    let mut at = 0;
    // The place moves past the line that was read. A match adds trace and line to a refusal: with `map_err` the proof did not close.
    while at < trace.len() {
        let here = line_at(trace, at);
        match keep_line(&trace[at..here.end], at, numbers, starts, count) {
            Ok(now) => count = now,
            Err(why) => {
                return Err(TraceRefusal {
                    why,
                    trace: which,
                    line,
                });
            }
        }
        at = here.next;
        line += 1;
    }
    Ok(count)
}
