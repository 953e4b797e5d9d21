//! Diagnostics of bib-1 (ANSI/NISO Z39.50-2003, Appendix 4 ERR) as SRU 1.2 tells them. What a
//! diagnostic is about goes with it unchanged.
#![tactic(auto)]

mod sru;

pub use sru::{sru_of, sru_of_diag, sru_text};
