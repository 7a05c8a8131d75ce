// Beside its newest packet a datagram carries spares (rule 4.4), or messages that cover n packets each (rule 4.6).
#[derive(Drop)]
#[derive(Clone, Copy)]
pub enum Kind {
    Spares,
    Parity(usize),
}
