// The answer, on standard output.
use std::io::{BufWriter, Stdout, Write};
use trace_compare::{Entry, TraceRefusal};

// Standard output behind a buffer.
pub type Out = BufWriter<Stdout>;

// Writes the first `count` entries of a list, two numbers each (rule 22.2).
pub fn tell_entries(out: &mut Out, list: &[u16], count: usize) {
    for entry in list.chunks_exact(Entry::SIZE).take(count) {
        if let [number, code] = entry {
            let _ = writeln!(out, "{number:04x} {code}");
        }
    }
}

fn tell_number(out: &mut Out, n: usize) {
    let _ = write!(out, " {n}");
}

pub fn tell_refused(out: &mut Out, refusal: TraceRefusal) {
    let _ = out.write_all(b"refused");
    tell_number(out, usize::from(refusal.why.number()));
    tell_number(out, refusal.why.place);
    tell_number(out, usize::from(refusal.trace));
    tell_number(out, refusal.line);
    let _ = out.write_all(b"\n");
}
