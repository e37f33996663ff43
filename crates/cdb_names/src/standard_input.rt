// The file of standard input. The standard library has no look at its descriptor, but `/proc` shows
// it.
use crate::looks::{Look, looked};
use std::fs::{self, File};
use std::rt::Files;

/// The name under which the system shows the file of standard input.
const INPUT: &str = "/proc/self/fd/0";

/// Returns the system's answer about the file of standard input: that there is none, if it is
/// closed or `/proc` is not mounted.
pub(crate) fn input_look<R: Files<File = File>>(rt: &R) -> Look {
    looked(fs::metadata(rt, INPUT))
}
