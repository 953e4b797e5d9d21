//! Workers in threads of their own over one pool, with all outside in memory: what each client is written,
//! what is printed, how the command ends, and that clients are served at the same time. All of it is tests,
//! over public calls alone.
#![tactic(auto)]

#[cfg(test)]
mod clients;
#[cfg(test)]
mod commands;
#[cfg(test)]
mod gates;
