// A message by its fields, each value by its bytes, with the frame that another program wrote,
// and how many of the frame's single-byte changes (each place, each of the 256 bytes) that
// program still reads.
pub struct Case {
    pub kind: u8,
    pub from: u8,
    pub to: u8,
    pub view: u32,
    pub key: u32,
    pub value: &'static [u8],
    pub second_key: u32,
    pub second_value: &'static [u8],
    pub previous: Option<u32>,
    pub frame: &'static [u8],
    pub kept: usize,
}
