// The console's controller: its ports, its clock over any byte source, and the row windows and stills of a page.
#![tactic(auto)]

pub mod raster;
pub mod state;
