// The records of the basin file, read where they stand, and the network of rows that its stations describe (document 01).
// A record is told by its body and its place there, and not by a view of its own bytes: the rules speak of the i-th record of a body, the
// order of stations and of rights asks for the record before as well, and a view would be made under the same condition, that the place
// is below the count, and be tied to that place again. A reader takes the bytes that a rule asks for, and no others.
#![tactic(auto)]

pub mod bodies;
pub mod network;
pub mod patterns;
pub mod reservoirs;
pub mod rights;
pub mod stations;
