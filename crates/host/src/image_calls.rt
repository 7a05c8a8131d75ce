// Images for C: a receiving session written as an image and read back (rules 20.18, 20.19 and 24.12). They take any memory and any text.
ghost use Rattle.host.specs.Image.{ImageHosted, RestoreHosted};

use crate::receiver::Head;
use host_answers::{Answered, Wrote, written_told};
use session_held::Session;

// What reading an image returns: the answer, and base and counts of the session after it.
#[repr(C)]
#[derive(Drop)]
pub struct AfterRestore {
    pub head: Head,
    pub answer: Answered,
}

// Writes the session's image to the front of `out`. Refuses 17, then 13 (rule 20.19).
#[unsafe(no_mangle)]
pub extern "C" fn tbx_core_image_write(
    head: Head,
    table: &[u16; Session::PLACES],
    octets: &[u8; Session::PACKET_OCTETS],
    messages: &[u8; Session::MESSAGE_OCTETS],
    out: &mut [u8],
) -> Wrote
    ensures { ImageHosted head table.now octets.now messages.now out.old
        out.new result }
{
    let counts = head.counts();
    let answer = image_writer::write_core(head.base, counts, table, octets, messages, out);
    written_told(answer)
}

// Writes the session that a text is an image of to the caller's memory. Refuses 21, 20, then 17; the memory is then unchanged (rule 20.18).
#[unsafe(no_mangle)]
pub extern "C" fn tbx_core_image_read(
    head: Head,
    table: &mut [u16; Session::PLACES],
    octets: &mut [u8; Session::PACKET_OCTETS],
    messages: &mut [u8; Session::MESSAGE_OCTETS],
    text: &[u8],
) -> AfterRestore
    ensures { RestoreHosted text.now head table.old octets.old messages.old
        table.new octets.new messages.new result }
{
    let read = image_reader::read(text);
    let session = read.session;
    match read.answer {
        Ok(()) => {
            let new_table = session.table;
            let new_octets = session.octets;
            let new_messages = session.messages;
            *table = new_table;
            *octets = new_octets;
            *messages = new_messages;
            AfterRestore {
                head: Head::new(session.base, session.counts),
                answer: Answered {
                    refusal: 0,
                    place: 0,
                },
            }
        }
        Err(why) => AfterRestore {
            head,
            answer: Answered {
                refusal: why.number(),
                place: why.place,
            },
        },
    }
}
