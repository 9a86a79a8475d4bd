// Formats: four questions about what a record may hold, and which records a format accepts. To be read in this order.
#![tactic(auto)]

// The four questions, and the formats that answer them.
pub mod format;
pub mod local;
pub mod shipped;

// What is wrong with a record in a format, number by number.
mod admitting;
pub mod faults;
pub mod indicator;
mod marks;
mod repeating;

// What a format accepts.
pub mod checking;
