//! The tests, a file for what they call.

mod addresses;
mod book;
mod classes;
mod configs;
mod data;
mod delegations;
mod disk;
mod entries;
mod graphs;
mod lines;
mod lookups;
mod open_tails;
mod outputs;
mod pool_machine;
mod records;
mod runs;
mod site_runs;
mod texts;
mod trees;
mod values;
mod workers;
