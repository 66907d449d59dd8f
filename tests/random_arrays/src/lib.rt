//! Random arrays: what each function returns is compared with the plain model of `random`.
#![tactic(auto)]

mod cases;
mod cutting;
mod empties;
mod equality;
mod joins;
mod layouts_match;
mod refusals;
mod scalars;
mod scans;
mod take_filter;
mod validities;
