// The four counts, on standard error.
use program_input::say;
use session_held::Counts;

fn say_count(rt: &HostRuntime, name: &[u8], n: u32) {
    say(rt, name);
    let _ = rt.stderr().print(n);
}

// Writes the four counts, in words (rules 21.2 and 21.8).
pub fn say_counts(rt: &HostRuntime, counts: Counts) {
    say_count(rt, b"received ", counts.received);
    say_count(rt, b", spare ", counts.spare);
    say_count(rt, b", repaired ", counts.repaired);
    say_count(rt, b", lost ", counts.lost);
    say(rt, b"\n");
}
