//! Tests of polled calls, of polled runs, and of tables of events.

mod event_tables;
mod hung_scripts;
mod orders;
mod polls;
mod random_decks;
mod rings;
