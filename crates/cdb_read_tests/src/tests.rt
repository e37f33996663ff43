//! What contracts can't say.
mod ahead;
mod bad_bytes;
mod bad_file;
mod checking;
mod counting;
mod damaged;
mod devices;
mod faults;
mod files;
mod finding;
mod memory;
mod reading;
mod refusals;
mod uses;
mod walking;
mod windows;
