// The largest number of parties of a ring; where a definition has the figure 64, so has the code that is proved of it.
pub const MOST_PARTIES: u8 = 64;
