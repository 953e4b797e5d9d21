//! Connections on one thread, over memory: what each is written wherever in its octets nothing has come yet, or
//! there is no room, and what it awaits then; that none is served to its end before the next is accepted; and what
//! a front does whose accept or wait fails. All of it is tests, over public calls alone.
#![tactic(auto)]

#[cfg(test)]
mod commands;
#[cfg(test)]
mod faults;
#[cfg(test)]
mod fronts;
#[cfg(test)]
mod gates;
#[cfg(test)]
mod octets;
#[cfg(test)]
mod plays;
#[cfg(test)]
mod tasks;
#[cfg(test)]
mod waits;
#[cfg(test)]
mod wires;
