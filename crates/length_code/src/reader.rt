// The length reader, as `length` defines it (rules 3.1 to 3.7). Its refusals have the place of the length (rule 3.9).
ghost use Rattle.length.specs.Promise.{LengthRead, WithinRead};

use length::{Length, Reason, Refusal, wide, within};

// The length or count at the front of `octets`; what follows it is not read (rule 3.7).
pub fn read(octets: &[u8]) -> Result<Length, Refusal>
    ensures { LengthRead octets.now result }
{
    if octets.len() < 1 {
        return Err(Refusal::new(Reason::EndsEarly));
    }
    let first = wide(octets[0]);
    if first < Length::TWO_FROM {
        return Ok(Length {
            value: first,
            size: 1,
        });
    }
    if 192 <= first {
        return Err(Refusal::new(Reason::BadForm));
    }
    if octets.len() < 2 {
        return Err(Refusal::new(Reason::EndsEarly));
    }
    let second = wide(octets[1]);
    let high = (first - 128) * 256;
    let value = high + second;
    if value < Length::TWO_FROM {
        return Err(Refusal::new(Reason::BadForm));
    }
    Ok(Length { value, size: 2 })
}

// The length or count at the front of `octets`, from least to most: 3 or 1 for its form, then 4 (rule 3.6).
pub fn read_within(octets: &[u8], least: usize, most: usize) -> Result<Length, Refusal>
    ensures { WithinRead least most octets.now result }
{
    let found = read(octets)?;
    if within(least, most, found.value) {
        return Ok(found);
    }
    Err(Refusal::new(Reason::OutsideSizes))
}
