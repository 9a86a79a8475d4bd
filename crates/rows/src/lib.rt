// Formats by their rows: what a row says of its tag, the check of rows, and the rows of the shipped formats.
#![tactic(auto)]

// How often a tag or a subfield may occur.
pub mod occurs;

// Rows, and the four questions that they answer.
pub mod rows;

// What is wrong with rows, and the check that tells it.
pub mod checking;
pub mod faults;

// The formats that come with the converter.
pub mod shipped;
