// Worked cases of ports, windows and stills.
#![tactic(auto)]

#[cfg(test)]
mod ports;
#[cfg(test)]
mod stills;
#[cfg(test)]
mod windows;
