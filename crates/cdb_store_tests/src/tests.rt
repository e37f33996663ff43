//! What no contract says: the worked rows, the causes of faults of real files, and the fake raw
//! file and the fuse that fail each call in turn.
mod files;
mod fuses;
mod memory;
mod mixed;
mod parts;
mod raw_faults;
mod support;
mod uses;
