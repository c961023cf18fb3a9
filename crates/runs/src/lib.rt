// What a walk under one bar comes to: it goes on until a document stops it, enters the table, or none is left.
// The definitions and the laws stand in specs/, and they alone speak of `Turn`: no code does.
#![tactic(auto)]

// How a run ends: no document is left; the stop rule stops before one; one enters the table.
#[derive(Clone, Copy)]
pub enum Turn {
    Finished,
    Stopped,
    Entered,
}
