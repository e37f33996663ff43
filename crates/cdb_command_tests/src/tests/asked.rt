// Lines that request a command, and the command that each requests.
use super::lines::words_of;
use cdb_command::plan;
use std::alloc::{AllocError, Global};
use std::prelude::*;
use std::test::Fail;

/// Returns true if a line requests the command that is shown so.
fn asks(alloc: Global, line: &str, shown: &str) -> Result<bool, AllocError> {
    match plan(alloc, words_of(alloc, line)?) {
        Ok(command) => Ok(format!(in alloc; "{command:?}")?.as_str() == shown),
        Err(_) => Ok(false),
    }
}

/// Returns true if a line requests a create of `x`, in words of 4 bytes, that is shown with these.
fn creates(
    alloc: Global,
    line: &str,
    base: &str,
    inputs: &str,
    temporary: &str,
    options: &str,
) -> Result<bool, AllocError> {
    let shown = format!(in alloc;
        "Create {{ name: \"x\", base: {base}, inputs: [{inputs}], \
        temporary: {temporary}, options: MakeOptions {{ {options}, limit: 4294967295 }}, \
        wide: false }}"
    )?;
    asks(alloc, line, shown.as_str())
}

/// Lines, and the commands that they request.
const READ: [(&str, &str); 20] = [
    ("-h -q -d", "Help"),
    ("-v -h", "Help"),
    ("-q -V -d", "Version"),
    ("-Vh", "Help"),
    (
        "-qi x",
        "Lookups { name: \"x\", inputs: [], number: None, style: Native, wide: false }",
    ),
    (
        "x -Wi - y -mvqn 2",
        "Lookups { name: \"x\", inputs: [\"-\", \"y\"], number: Some(2), style: Map, wide: true }",
    ),
    ("-kv x", "Check { name: Some(\"x\"), wide: false }"),
    (
        "-q x -n 1 -- -v",
        "Query { name: \"x\", key: \"-v\", number: Some(1), lines: false, wide: false }",
    ),
    (
        "-q x -- -k",
        "Query { name: \"x\", key: \"-k\", number: None, lines: false, wide: false }",
    ),
    (
        "-q -n 007 x k",
        "Query { name: \"x\", key: \"k\", number: Some(7), lines: false, wide: false }",
    ),
    (
        "x k -Wmqn4294967295",
        "Query { name: \"x\", key: \"k\", number: Some(4294967295), lines: true, wide: true }",
    ),
    (
        "-qq x k",
        "Query { name: \"x\", key: \"k\", number: None, lines: false, wide: false }",
    ),
    ("-d", "Dump { name: None, style: Native, wide: false }"),
    ("-d -", "Dump { name: None, style: Native, wide: false }"),
    (
        "-dm x",
        "Dump { name: Some(\"x\"), style: Map, wide: false }",
    ),
    (
        "-lW x",
        "List { name: Some(\"x\"), style: Native, wide: true }",
    ),
    ("-s -", "Stats { name: None, wide: false }"),
    ("-Wk x", "Check { name: Some(\"x\"), wide: true }"),
    (
        "-D x y",
        "Difference { old: \"x\", new: \"y\", wide: false }",
    ),
    (
        "- x -WDD",
        "Difference { old: \"-\", new: \"x\", wide: true }",
    ),
];

#[test]
fn lines_ask_for_what_is_read(rt: HostRuntime) -> Result<(), Fail> {
    for &(line, shown) in &READ {
        assert!(rt; asks(rt.alloc(), line, shown)?, "at {line}");
    }
    Ok(())
}

/// Lines that request a create, its inputs, its temporary file, and its options.
const MADE: [(&str, &str, &str, &str); 6] = [
    (
        "-c x",
        "",
        "None",
        "mode: Add, warn: false, stop: false, style: Native",
    ),
    (
        "-cm x",
        "",
        "None",
        "mode: Add, warn: false, stop: false, style: Map",
    ),
    (
        "-c -w x y",
        "\"y\"",
        "None",
        "mode: Warn, warn: true, stop: false, style: Native",
    ),
    (
        "-ce x",
        "",
        "None",
        "mode: Warn, warn: true, stop: true, style: Native",
    ),
    (
        "-c -eu x y -",
        "\"y\", \"-\"",
        "None",
        "mode: Insert, warn: true, stop: true, style: Native",
    ),
    (
        "-c -e -r -t - x",
        "",
        "Some(\"-\")",
        "mode: Replace, warn: true, stop: true, style: Native",
    ),
];

#[test]
fn lines_ask_for_what_is_made(rt: HostRuntime) -> Result<(), Fail> {
    for &(line, inputs, temporary, options) in &MADE {
        assert!(rt;
            creates(rt.alloc(), line, "None", inputs, temporary, options)?,
            "at {line}"
        );
    }
    Ok(())
}

#[test]
fn a_wide_line_asks_for_a_wide_file(rt: HostRuntime) -> Result<(), Fail> {
    let shown =
        "Create { name: \"x\", base: None, inputs: [], temporary: None, options: MakeOptions { \
        mode: Add, warn: false, stop: false, style: Native, limit: 9223372036854775807 }, \
        wide: true }";
    assert!(rt; asks(rt.alloc(), "-cW x", shown)?, "-cW x");
    Ok(())
}

/// How a create with no option is shown.
const ADDS: &str = "mode: Add, warn: false, stop: false, style: Native";

/// Lines that request a create of `x` with a base, the base, and the temporary file.
const AMENDED: [(&str, &str, &str); 5] = [
    ("-c -b x x", "Some(\"x\")", "None"),
    ("-c -b - x", "Some(\"-\")", "None"),
    ("-c -b ./x.tmp x", "Some(\"./x.tmp\")", "None"),
    ("-c -b y.tmp x", "Some(\"y.tmp\")", "None"),
    ("-cb y -t x x", "Some(\"y\")", "Some(\"x\")"),
];

#[test]
fn lines_ask_for_a_base(rt: HostRuntime) -> Result<(), Fail> {
    for &(line, base, temporary) in &AMENDED {
        assert!(rt;
            creates(rt.alloc(), line, base, "", temporary, ADDS)?,
            "at {line}"
        );
    }
    Ok(())
}

#[test]
fn a_base_is_taken_on_standard_output(rt: HostRuntime) -> Result<(), Fail> {
    let shown = "Create { name: \"-\", base: Some(\"-.tmp\"), inputs: [], temporary: None, \
        options: MakeOptions { mode: Add, warn: false, stop: false, style: Native, \
        limit: 4294967295 }, wide: false }";
    assert!(rt; asks(rt.alloc(), "-c -b-.tmp -", shown)?, "-c -b-.tmp -");
    Ok(())
}
