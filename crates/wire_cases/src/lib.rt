// The codec at its edges, as tables: faults, kinds, priority values, frames, settings and DATA.
#![tactic(auto)]

#[cfg(test)]
mod data_frames;
#[cfg(test)]
mod faults;
#[cfg(test)]
mod frames;
#[cfg(test)]
mod numbered;
#[cfg(test)]
mod priorities;
