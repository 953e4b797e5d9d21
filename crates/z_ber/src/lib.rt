//! The Basic Encoding Rules (X.690:2021) over octets in memory: headers, frames, lent elements, and
//! the one written form of each element. What elements mean is left to the crates above.
#![tactic(auto)]

mod digits;
mod element;
mod extent;
mod fault;
mod frame;
mod laws;
mod oid;
mod place;
mod put;
mod read;
mod scan;
mod spell;
mod step;
mod strict;
mod tag;
mod values;
mod wanting;

pub use element::Element;
pub use fault::BerFault;
pub use frame::{definite_frame, too_large};
pub use laws::{
    lends_written, one_element, one_extent, one_place, one_root, one_split, one_split_of_frames,
    one_tree, one_unit_place, one_value, reads_back, stands_on, written_elements, written_extent,
};
pub use oid::oid_of;
pub use place::elements;
pub use put::{put_bits, put_bool, put_bytes, put_int, put_oid, put_tree};
pub use read::header;
pub use scan::{Scan, whole};
pub use spell::{bits_len, header_len, int_len, oid_len, put_header};
pub use strict::read_written_element;
pub use tag::{Header, Tag, WrittenElement};
pub use values::{bits_of, bool_of, int_of};
