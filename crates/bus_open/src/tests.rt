//! What no clause says: that calls succeed, the texts of whole runs, and what comes of streams that fail.

mod again;
mod deadlines;
mod dialling;
mod failing;
mod hostile;
mod opening;
mod program;
mod streams;
