//! The tests, by what they try: listings, machines, matches, replayed trees, whole runs, series match by match,
//! and sinks.

mod checks;
mod listing_tests;
mod machine_tests;
mod match_tests;
mod replay_tests;
mod run_tests;
mod series_tests;
mod sink_tests;
