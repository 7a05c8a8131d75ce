// The joiner for C: `tainted` and `size` are passed by value, the open frame by pointer. The calls take any memory (rule 24.3); `tainted`
// is the octet 0 or 1 (rule 24.6).
ghost use Rattle.host.specs.Joiner.{memory_of, KeptTold, JoinerMade, FieldHosted, LossHosted};

use frame::Joiner;
use frame_joiner::{Kept, feed, taint};
use host_answers::{AfterField, JoinerHead, flag, frame_told, no_flag, no_joiner};

fn kept_told(kept: Kept) -> AfterField
    ensures { KeptTold kept result }
{
    AfterField {
        head: JoinerHead {
            tainted: flag(kept.tainted),
            size: kept.size,
        },
        frame: frame_told(kept.answer),
    }
}

// Writes a fresh joiner to the caller's memory (rules 16.1 and 24.18).
#[unsafe(no_mangle)]
pub extern "C" fn tbx_core_joiner_fresh(frame: &mut [u8; Joiner::LIMIT]) -> JoinerHead
    ensures { JoinerMade frame.new result }
{
    let fresh = Joiner::fresh();
    let octets = fresh.frame;
    *frame = octets;
    JoinerHead {
        tainted: flag(fresh.tainted),
        size: fresh.size,
    }
}

// Takes one field of a packet, and writes a frame that it ends to the front of `out` (rules 16.2 to 16.16).
#[unsafe(no_mangle)]
pub extern "C" fn tbx_core_joiner_field(
    tainted: u8,
    size: u16,
    frame: &mut [u8; Joiner::LIMIT],
    kind: u8,
    octets: &[u8],
    out: &mut [u8],
) -> AfterField
    ensures { FieldHosted kind octets.now (memory_of tainted size frame.old) out.old
        frame.new out.new result }
{
    if no_flag(tainted) {
        return no_joiner(tainted, size);
    }
    kept_told(feed(tainted == 1, size, frame, kind, octets, out))
}

// Takes one lost number (rule 16.8).
#[unsafe(no_mangle)]
pub extern "C" fn tbx_core_joiner_lost(
    tainted: u8,
    size: u16,
    frame: &mut [u8; Joiner::LIMIT],
) -> AfterField
    ensures { LossHosted (memory_of tainted size frame.old) frame.new result }
{
    if no_flag(tainted) {
        return no_joiner(tainted, size);
    }
    kept_told(taint(tainted == 1, size, frame))
}
