// The frame machine's state in 64-bit words, as a caller in C lends it: specs/ has the layout and the words after each call, proofs/ that reading the words back gives the
// state of the machine's own call, and that every other word is as it was. There is no code but the layout's numbers: `frame_state_words` reads and writes the words, `frame_word_calls` has the calls.

// Words of the whole state, of the registers in it, of a record or a request.
#![tactic(auto)]

pub const MACHINE_WORDS: usize = 262;

pub const REGISTERS_WORDS: usize = 66;

pub const RECORD_WORDS: usize = 6;

// Where the depth stands, and where the registers and the records start.
pub const DEPTH_AT: usize = 3;

pub const REGISTERS_AT: usize = 4;

pub const RECORDS_AT: usize = 70;

// In the registers: where the floating ones start, and LR and CR stand.
pub const FLOATING_IN: usize = 32;

pub const LR_IN: usize = 64;

pub const CR_IN: usize = 65;

// The same in the whole state.
pub const FLOATING_AT: usize = REGISTERS_AT + FLOATING_IN;

pub const LR_AT: usize = REGISTERS_AT + LR_IN;

pub const CR_AT: usize = REGISTERS_AT + CR_IN;
