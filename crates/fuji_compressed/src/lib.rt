// The functions for C, which include/fuji_compressed.h declares: a module for each role. Each hands back a refusal's four words, all 0
// if nothing is refused, and its results, all 0 if it is refused.
#![tactic(auto)]

mod checkpoints;
mod copies;
mod decoding;
mod planning;
mod reading;
mod streams;
mod writer;
