// What becomes of a row in a frame.
#[derive(Clone, Copy)]
pub enum Fate {
    // true to the page, with its last byte in this clock of the frame
    Shown(u32),
    Late,
    // below a late row
    Dark,
    // takes no bytes
    Blank,
}
