// What a graphic code does on a line: nothing, video suppression, light enable, or the line attributes LA1 and LA0.
#[derive(Clone, Copy, PartialEq, Eq, Debug)]
pub enum Mark {
    Plain,
    Vsp,
    Lten,
    La01,
    La10,
    La11,
}
