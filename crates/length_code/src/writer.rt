// The length writer, as `length` defines it (rules 3.1, 3.2 and 3.8).
ghost use Rattle.length.specs.Length.{length_to_write};
ghost use Rattle.length.specs.Promise.{Puts};

use length::{Length, Reason, Refusal};

// The length n, written to the front of out: 4 over 16,383, then 13 (rule 3.8). A refusal writes nothing (rule 2.25).
pub fn write(n: usize, out: &mut [u8]) -> Result<usize, Refusal>
    ensures { Puts (length_to_write n) out.old out.new result }
{
    if Length::LIMIT < n {
        return Err(Refusal::new(Reason::OutsideSizes));
    }
    if n < Length::TWO_FROM {
        if out.len() < 1 {
            return Err(Refusal::new(Reason::NoRoom));
        }
        out[0] = (n % 256) as u8;
        return Ok(1);
    }
    if out.len() < 2 {
        return Err(Refusal::new(Reason::NoRoom));
    }
    let high = n / 256 + 128;
    out[0] = (high % 256) as u8;
    out[1] = (n % 256) as u8;
    Ok(2)
}
