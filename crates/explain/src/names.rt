// Annex A's names, those added in 2002 included (rules 6.28 to 6.30, 7.4, 7.14 and 7.15), each with its meaning in plain words: a table for
// each type, a line for each value.
use crate::text::{Out, say_line};

// The character that ends a name, and the one that ends its line.
pub const NAME: char = ',';

pub const LINE: char = '\n';

pub fn say_indicator(out: &mut Out, value: usize, end: char) {
    say_line(
        out,
        "no-signal, nothing on the line
cng, calling tone, 1100 Hz
ced, answering tone, 2100 Hz
v21-preamble, flags before V.21 frames
v27-2400-training, training signal of V.27 ter at 2400 bit/s
v27-4800-training, training signal of V.27 ter at 4800 bit/s
v29-7200-training, training signal of V.29 at 7200 bit/s
v29-9600-training, training signal of V.29 at 9600 bit/s
v17-7200-short-training, training signal of V.17 at 7200 bit/s
v17-7200-long-training, training signal of V.17 at 7200 bit/s
v17-9600-short-training, training signal of V.17 at 9600 bit/s
v17-9600-long-training, training signal of V.17 at 9600 bit/s
v17-12000-short-training, training signal of V.17 at 12000 bit/s
v17-12000-long-training, training signal of V.17 at 12000 bit/s
v17-14400-short-training, training signal of V.17 at 14400 bit/s
v17-14400-long-training, training signal of V.17 at 14400 bit/s
v8-ansam, answering tone of V.8
v8-signal, signal of V.8
v34-cntl-channel-1200, control channel of V.34 at 1200 bit/s
v34-pri-channel, primary channel of V.34
v34-CC-retrain, the control channel of V.34 is trained again
v33-12000-training, training signal of V.33 at 12000 bit/s
v33-14400-training, training signal of V.33 at 14400 bit/s
",
        value,
        end,
    )
}

pub fn say_data(out: &mut Out, value: usize, end: char) {
    say_line(
        out,
        "v21, sent by V.21 at 300 bit/s
v27-2400, sent by V.27 ter at 2400 bit/s
v27-4800, sent by V.27 ter at 4800 bit/s
v29-7200, sent by V.29 at 7200 bit/s
v29-9600, sent by V.29 at 9600 bit/s
v17-7200, sent by V.17 at 7200 bit/s
v17-9600, sent by V.17 at 9600 bit/s
v17-12000, sent by V.17 at 12000 bit/s
v17-14400, sent by V.17 at 14400 bit/s
v8, sent by V.8
v34-pri-rate, sent by V.34
v34-CC-1200, sent by V.34, control channel at 1200 bit/s
v34-pri-ch, sent by V.34, primary channel
v33-12000, sent by V.33 at 12000 bit/s
v33-14400, sent by V.33 at 14400 bit/s
",
        value,
        end,
    )
}

// field-type
pub fn say_type(out: &mut Out, kind: usize, end: char) {
    say_line(
        out,
        "hdlc-data, octets of a frame
hdlc-sig-end, the frames' signal ends
hdlc-fcs-OK, a good frame ends, more follow
hdlc-fcs-BAD, a bad frame ends, more follow
hdlc-fcs-OK-sig-end, a good frame ends, the last
hdlc-fcs-BAD-sig-end, a bad frame ends, the last
t4-non-ecm-data, octets of a page without error correction
t4-non-ecm-sig-end, the page without error correction ends
cm-message, the fax profile in a CM signal of V.8
jm-message, the answer to a CM signal of V.8
ci-message, what a CI signal of V.8 calls for
v34rate, the rate of the primary channel of V.34
",
        kind,
        end,
    )
}
