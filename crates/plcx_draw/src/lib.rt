//! Draws a checked project: finds what each name leads to, and gives the elements of each POU as data.
//!
//! A drawing shows just the POU that `diagrams_of` of plcx_view has at its place.
#![tactic(auto)]

mod blocks;
mod bodies;
mod calls;
mod elements;
mod feedback;
mod kinds;
mod known;
mod pins;
mod sheet;
mod wired;

pub use bodies::drawing;
