// Numbers in fields of bytes, as frames, stores and packed states have them.
#![tactic(auto)]

pub mod big_endian;
