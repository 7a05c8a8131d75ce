// A send from a session that is within its ranges.
ghost use Rattle.std.specs.Prelude.{◌%◌, ◌≡◌};
ghost use Rattle.length.specs.Promise.{Puts};
ghost use Rattle.session.specs.View.{numbers};
ghost use Rattle.sender.specs.Carries.{settings_inside};
ghost use Rattle.sender.specs.Send.{packet_inside, datagram_to_send};
ghost use Rattle.sender.specs.Sender.{sending_in};
ghost use Rattle.sender.specs.Inner.Held.{Within};
ghost use Rattle.sender.specs.Inner.Next.{kind_asked, count_of};
ghost use Rattle.sender_calls.specs.Inner.{SendsHeld};

use datagram::{Kind, Packet, count_inside};
use length::{Reason, Refusal};
use sender::{Sender, Settings};
use sender_history::{History, keep};

// ---- the settings

fn settings_inside(settings: Settings) -> bool
    ensures { result ≡ settings_inside settings }
{
    match settings {
        Settings::Spares(k) => count_inside(Kind::Spares, usize::from(k)),
        Settings::Parity { n, m } => count_inside(Kind::Parity(usize::from(n)), usize::from(m)),
    }
}

fn kind_of(settings: Settings) -> Kind
    ensures { result ≡ kind_asked settings }
{
    match settings {
        Settings::Spares(_) => Kind::Spares,
        Settings::Parity { n, .. } => Kind::Parity(usize::from(n)),
    }
}

// How many spares or messages: not more spares than packets were sent (rules 15.4 and 15.5).
fn count_of(settings: Settings, sent: usize) -> usize
    ensures { result ≡ count_of settings sent }
{
    match settings {
        Settings::Spares(k) => usize::from(k).min(sent),
        Settings::Parity { m, .. } => usize::from(m),
    }
}

// The number of the packet that is sent after `sent` others (rule 15.3).
fn number_of(sent: usize) -> u16
    ensures { result ≡ sent % numbers }
{
    (sent % 65536) as u16
}

// ---- the send

fn packet_inside(packet: &[u8]) -> bool
    ensures { result ≡ packet_inside packet.now }
{
    Packet::LEAST <= packet.len() && packet.len() <= Packet::LIMIT
}

// Refuses 16, 15, 4 or 13, in this order (rule 15.8), or writes the datagram.
fn write_held(
    sent: usize,
    sizes: &[u16],
    octets: &[u8],
    packet: &[u8],
    settings: Settings,
    out: &mut [u8],
) -> Result<usize, Refusal>
    requires { Within sent sizes.now octets.now }
    ensures { Puts (datagram_to_send settings packet.now (sending_in sent sizes.now octets.now))
        out.old out.new result }
{
    if Sender::LIMIT <= sent {
        return Err(Refusal::new(Reason::AllPassed));
    }
    if !settings_inside(settings) {
        return Err(Refusal::new(Reason::WrongSettings));
    }
    if !packet_inside(packet) {
        return Err(Refusal::new(Reason::OutsideSizes));
    }
    let history = History {
        number: number_of(sent),
        sizes,
        octets,
    };
    history.write_next(packet, kind_of(settings), count_of(settings, sent), out)
}

// Writes the datagram and puts the packet into the history (rule 15.12). A refusal changes nothing (rule 15.11).
pub fn send_held(
    sent: usize,
    sizes: &mut [u16],
    octets: &mut [u8],
    packet: &[u8],
    settings: Settings,
    out: &mut [u8],
) -> Result<usize, Refusal>
    requires { Within sent sizes.old octets.old }
    ensures { SendsHeld sent settings packet.now sizes.old octets.old out.old
        sizes.new octets.new out.new result }
{
    let n = write_held(sent, sizes, octets, packet, settings, out)?;
    keep(number_of(sent), packet, sizes, octets);
    Ok(n)
}
