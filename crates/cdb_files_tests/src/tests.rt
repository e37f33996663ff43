//! What no contract says: a folder in memory whose calls fail in turn, and real files.
mod building;
mod callers;
mod fake_file;
mod fake_names;
mod faults;
mod files;
mod real;
