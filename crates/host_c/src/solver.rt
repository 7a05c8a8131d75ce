// Solving for C (rules 24.3 and 24.4).
ghost use Rattle.session_held.specs.Table.{lent_by};
ghost use Rattle.session_held.specs.Laid.{InRanges};
ghost use Rattle.host.specs.Receiver.{session_in};
ghost use Rattle.host.specs.Solver.{SolveHosted};

use host::Head;
use host_answers::Answered;
use session_held::Session;

#[unsafe(no_mangle)]
pub extern "C" fn tbx_core_solve(
    head: Head,
    table: &mut [u16; Session::PLACES],
    octets: &mut [u8; Session::PACKET_OCTETS],
    messages: &[u8; Session::MESSAGE_OCTETS],
) -> Answered
    requires { InRanges (lent_by (session_in head table.old octets.old messages.now)) }
    ensures { SolveHosted head table.old octets.old messages.now table.new
        octets.new result }
{
    host::tbx_core_solve(head, table, octets, messages)
}

#[unsafe(no_mangle)]
pub extern "C" fn tbx_core_solve_checked(
    head: Head,
    table: &mut [u16; Session::PLACES],
    octets: &mut [u8; Session::PACKET_OCTETS],
    messages: &[u8; Session::MESSAGE_OCTETS],
) -> Answered
    ensures { SolveHosted head table.old octets.old messages.now table.new
        octets.new result }
{
    host::tbx_core_solve_checked(head, table, octets, messages)
}
