// What the ports are waiting for.
#[derive(Clone, Copy, PartialEq, Eq, Debug)]
pub enum Pending {
    // a variant and no None: an Option would put Some around eight variants, and the matches would lose nothing
    Nothing,
    // the parameters of Reset, and those that have come
    Reset1,
    Reset2(u8),
    Reset3(u8, u8),
    Reset4(u8, u8, u8),
    // the parameters of Load Cursor
    CursorColumn,
    CursorRow(u8),
    // the reads of Read Light Pen
    PenColumn,
    PenRow,
}
