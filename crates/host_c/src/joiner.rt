// The joiner for C (rule 24.3).
ghost use Rattle.host.specs.Joiner.{memory_of, JoinerMade, FieldHosted, LossHosted};

use frame::Joiner;
use host_answers::{AfterField, JoinerHead};

#[unsafe(no_mangle)]
pub extern "C" fn tbx_core_joiner_fresh(frame: &mut [u8; Joiner::LIMIT]) -> JoinerHead
    ensures { JoinerMade frame.new result }
{
    host::tbx_core_joiner_fresh(frame)
}

#[unsafe(no_mangle)]
pub extern "C" fn tbx_core_joiner_field(
    tainted: u8,
    size: u16,
    frame: &mut [u8; Joiner::LIMIT],
    kind: u8,
    octets: &[u8],
    out: &mut [u8],
) -> AfterField
    ensures { FieldHosted kind octets.now (memory_of tainted size frame.old) out.old
        frame.new out.new result }
{
    host::tbx_core_joiner_field(tainted, size, frame, kind, octets, out)
}

#[unsafe(no_mangle)]
pub extern "C" fn tbx_core_joiner_lost(
    tainted: u8,
    size: u16,
    frame: &mut [u8; Joiner::LIMIT],
) -> AfterField
    ensures { LossHosted (memory_of tainted size frame.old) frame.new result }
{
    host::tbx_core_joiner_lost(tainted, size, frame)
}
