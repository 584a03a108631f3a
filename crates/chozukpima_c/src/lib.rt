// What C calls: each function of `chozukpima` under its own name, with its contract. include/chozukpima.h declares them.
#![tactic(auto)]

mod downlinks;
mod messages;
mod sessions;
mod stream;
mod table;
mod traces;
