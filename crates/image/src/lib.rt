// The file image: what its words say, and the rules that one image alone can break.
//
// Below stand the rules of texts, crate `names`; above stands the linker, which cites what is promised here. Every public function is
// total: any words, any bytes, any lengths are answered.
#![tactic(auto)]

pub mod fields;
pub mod flat;
pub mod full_name;
pub mod imports;
pub mod judge;
pub mod layout;
pub mod limits;
mod link_tests;
pub mod links;
pub mod map_entry;
pub mod oneofs;
mod owners;
pub mod rows;
pub mod schema;
mod seen;
pub mod shelf;
mod siblings;
pub mod texts;
pub mod values;
pub mod verdict;
pub mod well_formed;
