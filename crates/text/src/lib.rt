// The text form: its definitions are in specs/, their laws in proofs/. There is no code.
#![tactic(auto)]

// The office's figures.
pub const BYTES: usize = 65535;

pub const LINES: usize = 1024;

pub const DEPTH: u8 = 16;

// The figures that go by the place of use: the bytes and lines of a text (T18), and how many terms deep its terms nest (T12).
#[derive(Clone, Copy, Debug, PartialEq, Eq)]
pub struct Figures {
    pub bytes: usize,
    pub lines: usize,
    pub depth: u8,
}
