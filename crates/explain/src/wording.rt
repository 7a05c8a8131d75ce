// The words that the program writes.
use crate::text::{Out, say};

pub const NO: &str = "no";

pub const YES: &str = "yes";

pub const OCTET: &str = " octet";

pub const FIELD: &str = " field";

pub const COLON: &str = ": ";

pub const COMMA: &str = ", ";

pub const OPENS: &str = " (";

pub const CLOSES: &str = "), ";

pub const AS_OCTETS: &str = "octets            ";

pub const ENDS_EARLY: &str = "the octets end too early";

pub const BAD_FORM: &str = "a length in a form that is not allowed";

pub const OUTSIDE_SIZES: &str = "a length, a count, n or m outside the sizes";

pub const SPARE_BIT: &str = "a spare bit is set";

pub const LEFT_OVER: &str = "octets follow the end";

pub const NOT_ASSIGNED: &str = "the extension bit, or a value that is not assigned";

pub const WRONG_DATA: &str = "data where none may be, or none where it must";

pub const IN_README: &str = "README has a table of the refusals";

pub const IFP_PACKET: &str = "IFPPacket";

pub const AT_MOST: &str = ", at most ";

pub const NO_PACKET: &str =
    "no packet in hexadecimal: two digits an octet, at most 4,800; the words new and repaired may stand first";

pub const PRESENT: &str = "data-field present";

pub const TYPE_OF_MSG: &str = "Type-of-msg";

pub const INDICATOR: &str = "t30-indicator";

pub const DATA: &str = "data";

pub const T30_DATA: &str = "t30-data";

pub const NO_EXTENSION: &str = "no extension";

pub const EXTENSION: &str = "extension";

pub const SIX_BITS: &str = "six bits follow";

pub const PADDING: &str = "padding";

pub const ZERO_BITS: &str = "zero bits to an octet edge";

pub const OPTIONAL: &str = "data-field OPTIONAL";

pub const DATA_FIELD: &str = "Data-Field";

pub const DATA_PRESENT: &str = "field-data present";

pub const FIELD_TYPE: &str = "field-type";

pub const DATA_OPTIONAL: &str = "field-data OPTIONAL";

pub const LENGTH: &str = "field-data, length";

pub const ONE_MORE: &str = ", one more than the bits";

pub const FIELD_DATA: &str = "field-data";

pub const DUE: &str = " due, ";

pub const THERE: &str = " there: ";

pub const AFTER_END: &str = "after the end";

pub const ZEROS: &str = "zeros, as a repaired packet may have";

pub const READS_AS_INDICATOR: &str = "reads as indicator ";

pub const READS_AS_DATA: &str = "reads as data ";

pub const TYPE: &str = "; type ";

pub const READS_ONLY_IN_OLD: &str = "; it reads only in the old edition (06/98)";

pub const READS_ONLY_IN_NEW: &str = "; it reads only in the new edition (2002)";

pub fn say_word(out: &mut Out, word: &str) {
    say(out, word.as_bytes())
}

// The last words of a line.
pub fn end_line(out: &mut Out, word: &str) {
    say_word(out, word);
    say(out, b"\n");
}
