// What a listing of a screen says: the text, the marks and the words of a row, by a console that its firmware programmed.
#![tactic(auto)]

pub mod column;
pub mod firmware;
pub mod glyph;
mod lit;
pub mod marks;
pub mod row;
