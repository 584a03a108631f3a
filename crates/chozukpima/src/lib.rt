// What a host calls: numbers and byte slices in, one number out. `chozukpima_c` exports it to C.
#![tactic(auto)]

mod answer;
pub mod downlinks;
pub mod messages;
pub mod sessions;
pub mod stream;
pub mod table;
pub mod traces;
