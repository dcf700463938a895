// Reading the bytes of records: frames, kinds and lengths.
#![tactic(auto)]

pub mod frame;
