// Both sinks at their edges, as tables.
#![tactic(auto)]

#[cfg(test)]
mod puts;
