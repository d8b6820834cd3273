// Steps of worked journals: lines that spell settings, events and records, both cores side by side, which are to answer alike, and what
// is printed of their entries. Programs that play stored journals stand on it.
//
// A line `settings ..` begins a journal (settings.rt says what it holds). `forget` has the cores forget, and prints the numbers of the
// entries that stay and of those that are handed back. Any other line is a step, as a journal prints it: the moment handed in and the
// event. Empty lines and lines that begin with `#` are printed as they stand.
#![tactic(auto)]

pub mod cores;
pub mod events;
mod forgetting;
pub mod givens;
mod kinds;
pub mod output;
pub mod records;
pub mod replies;
pub mod settings;
pub mod words;
