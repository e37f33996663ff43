// The usage text, and a writer that takes a prefix of it; the version.
use cdb_command::{write_usage, write_version};
use cdb_form::OutFault;
use std::prelude::*;
use std::test::Fail;

const TEXT: &str = "usage: cdb -q [-W] [-m] [-n number] database key
       cdb -q -i [-W] [-m] [-n number] database [input ...]
       cdb -d [-W] [-m] [database]
       cdb -l [-W] [-m] [database]
       cdb -s [-W] [database]
       cdb -c [-W] [-m] [-t temporary] [-b base] [-weru] database [input ...]
       cdb -k [-W] [database]
       cdb -D [-W] old new
       cdb -h
       cdb -V
       with each: -v  say which file and why

  -q  query: write the values of a key
  -d  dump: write all records
  -l  list: write all keys
  -s  write statistics
  -c  create a database from texts
  -k  check a database
  -D  write what changed between two databases
  -h  write the usage
  -V  write the version
  -n  write only the value with this number
  -m  read or write a map, a key and a value a line
  -i  look up all keys of the inputs
  -t  build in this file
  -b  amend this database
  -w  report duplicate keys
  -e  stop at a duplicate key
  -r  a record replaces those of its key
  -u  leave out duplicate keys
  -W  use words of 8 bytes, for files above 4 GiB
";

/// Returns true if so much room holds these bytes then, and the answer is this one.
fn writes(room: usize, answer: Result<(), OutFault>, text: &str) -> bool {
    let mut bytes = [0; 2000];
    let Some(mut left) = bytes.get_mut(..room) else {
        return false;
    };
    let same = write_usage(&mut left) == answer;
    let held = room.saturating_sub(left.len());
    same && bytes.get(..held) == Some(text.as_bytes())
}

#[test]
fn the_usage_text_is_written(rt: HostRuntime) -> Result<(), Fail> {
    assert!(rt; writes(2000, Ok(()), TEXT), "whole");
    assert!(rt;
        writes(20, Err(OutFault), "usage: cdb -q [-W] ["),
        "a front of 20"
    );
    Ok(())
}

/// Returns true if the version is a line that begins so.
fn is_versioned(front: &str) -> bool {
    let mut bytes = [0; 100];
    let mut left = &mut bytes[..];
    let written = write_version(&mut left);
    let held = 100usize.saturating_sub(left.len());
    let text = bytes.get(..held).unwrap_or(&[]);
    written.is_ok() && text.starts_with(front.as_bytes()) && text.ends_with(b" (Pezundrix)\n")
}

#[test]
fn the_version_is_written(rt: HostRuntime) -> Result<(), Fail> {
    assert!(rt; is_versioned("cdb 1."), "the version");
    Ok(())
}
