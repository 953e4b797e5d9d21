//! Elements of a unit, seen as the tree that they are, and fields of each kind (X.690:2021;
//! ANSI/NISO Z39.50-2003, the ASN.1 of its APDUs). Which fields a unit has is left to the crate above.
#![tactic(auto)]

mod answers;
mod bits;
mod elements;
mod fields;
mod integers;
mod oids;
mod rows;

pub use answers::{FieldFault, both};
pub use bits::bits_in;
pub use elements::{Elements, Field, has_tag};
pub use fields::Fields;
pub use integers::{integer_in, number_in, truth_in};
pub use oids::oid_in;
pub use rows::{
    bits_of, context, flag_of, integer_of, number_of, octets_of, oid_of, optional_number,
    optional_octets, optional_oid, required_bits, required_flag, required_integer, required_number,
    required_octets, required_oid, universal,
};
