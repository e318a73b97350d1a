// The lines that carry a column's picture on one line of its row.
#[derive(Clone, Copy)]
pub struct Signals {
    // character code, seven bits
    pub cc: u8,
    // line attributes
    pub la1: bool,
    pub la0: bool,
    // light enable
    pub lten: bool,
    // reverse video
    pub rvv: bool,
    // video suppression
    pub vsp: bool,
    // highlight
    pub hglt: bool,
    // general purpose attributes
    pub gpa1: bool,
    pub gpa0: bool,
}
