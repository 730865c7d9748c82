// Both policies through the same calls, as tables with the answers worked out by hand.
#![tactic(auto)]

#[cfg(test)]
mod refusals;
#[cfg(test)]
mod steps;
#[cfg(test)]
mod turns;
