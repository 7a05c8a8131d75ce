// The arguments of a call, read one after the other.

// The octets that are still to be read. Past the end an argument reads as 0 and as no octets; from then on it is None, and the line lacks
// arguments (rule 25.5).
#[derive(Drop)]
pub struct Arguments<'a> {
    left: Option<&'a [u8]>,
}

impl<'a> Arguments<'a> {
    pub fn of(octets: &'a [u8]) -> Arguments<'a> {
        Arguments { left: Some(octets) }
    }

    fn take(&mut self, size: usize) -> Option<&'a [u8]> {
        let parts = self.left.and_then(|left| left.split_at_checked(size));
        self.left = parts.map(|(_, rest)| rest);
        parts.map(|(front, _)| front)
    }

    pub fn octet(&mut self) -> u8 {
        match self.take(1) {
            Some([octet]) => *octet,
            _ => 0,
        }
    }

    // A number of two octets, high octet first.
    pub fn two(&mut self) -> u16 {
        let high = self.octet();
        let low = self.octet();
        u16::from_be_bytes([high, low])
    }

    // A number of `width` octets, high octet first.
    pub fn number(&mut self, width: usize) -> u32 {
        let mut n: u32 = 0;
        for _ in 0..width {
            n = n % 16777216 * 256 + u32::from(self.octet());
        }
        n
    }

    // Octets behind their length, which has `width` octets.
    pub fn sized(&mut self, width: usize) -> &'a [u8] {
        let size = self.number(width) as usize;
        self.take(size).unwrap_or(&[])
    }

    // Numbers of two octets behind their count of `width` octets, written to the front of `out`; none if it has no room for them.
    pub fn numbers<'b>(&mut self, width: usize, out: &'b mut [u16]) -> &'b [u16] {
        let count = self.number(width) as usize;
        let Some(listed) = out.get_mut(..count) else {
            return &[];
        };
        for place in listed.iter_mut() {
            *place = self.two();
        }
        listed
    }

    // All octets that are left, unless the line lacks arguments.
    pub fn rest(self) -> Option<&'a [u8]> {
        self.left
    }

    // Whether the line has all of its arguments, and nothing more (rule 25.5).
    pub fn are_all(&self) -> bool {
        matches!(self.left, Some([]))
    }
}
