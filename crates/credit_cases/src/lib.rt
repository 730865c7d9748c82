// Gates at their edges, as tables of calls with the answers worked out by hand.
#![tactic(auto)]

#[cfg(test)]
mod caps;
#[cfg(test)]
mod edges;
#[cfg(test)]
mod limits;
#[cfg(test)]
mod mixed;
#[cfg(test)]
mod refusals;
#[cfg(test)]
mod steps;
#[cfg(test)]
mod worked;
