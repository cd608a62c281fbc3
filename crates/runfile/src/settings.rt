//! The settings of a run.

/// The settings of a run: which pile is built, and with what numbers.
#[derive(Clone, Copy)]
pub struct Settings {
    // A letter and no enum: a rule of the project has the pile chosen by its char literals, and `compose` writes any letter.
    /// The letter of the pile: A, B or C.
    pub pile: char,
    /// How many regions the gap layer has.
    pub regions: u8,
    /// After how many writes a layer moves a line.
    pub interval: u16,
    /// How many lines the medium has.
    pub lines: u16,
    /// The half-width of the shuffle, in bits.
    pub n: u8,
    /// How many writes the medium takes.
    pub life: u32,
    /// The keys of the shuffle, or of the refresh.
    pub keys: [u16; 4],
}
