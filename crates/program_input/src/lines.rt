// The input line by line, for the programs that answer each line by itself; only a line feed ends a line (rule 18.9).
use std::io::Read;

// How many characters are read at a time.
const BLOCK: usize = 65536;

// The input, and the block of it that was read last: its characters from `at` up to `end` are still to come. `ended` is set once the input
// ended or a read failed (rule 18.13).
#[derive(Drop)]
pub struct Lines<R> {
    input: R,
    block: [u8; BLOCK],
    at: usize,
    end: usize,
    ended: bool,
}

impl<R: Read> Lines<R> {
    pub fn new(input: R) -> Lines<R> {
        Lines {
            input,
            block: [0; BLOCK],
            at: 0,
            end: 0,
            ended: false,
        }
    }

    // The characters that are still to come of the block that was read last: the next block where there are none, and none at the end.
    fn rest(&mut self) -> &[u8] {
        if self.end <= self.at && !self.ended {
            self.end = self.input.read(&mut self.block).unwrap_or(0);
            self.at = 0;
            self.ended = self.end == 0;
        }
        self.block.get(self.at..self.end).unwrap_or(&[])
    }

    // Reads the next line without its line feed and without the characters to leave out to the front of `line`, and returns it; of a line
    // that is too long, as many characters as there is room for. None at the end of the input: a last line without a line feed counts
    // unless it is empty (rule 18.8).
    pub fn next_line<'a>(&mut self, line: &'a mut [u8], left_out: &[u8]) -> Option<&'a [u8]> {
        let mut size = 0;
        // The input need not end, so the blocks are counted up to a number that no run reaches.
        for _ in 0..u64::MAX {
            let mut taken: usize = 0;
            let mut whole = false;
            let rest = self.rest();
            let last = rest.is_empty();
            for next in rest {
                taken = taken.wrapping_add(1);
                if *next == b'\n' {
                    whole = true;
                    break;
                }
                if size < line.len() && !left_out.contains(next) {
                    line[size] = *next;
                    size += 1;
                }
            }
            self.at = self.at.saturating_add(taken);
            if last && size == 0 {
                return None;
            }
            if last || whole {
                break;
            }
        }
        Some(&line[..size])
    }
}
