// A set of up to nine photographs of one mark, in memory that the caller lends. The layout is told in
// definitions/specs/Sets.antt; any bytes are a set's, and nothing is kept elsewhere.
#![tactic(auto)]

pub mod combining;
pub mod holding;
