// The names of inputs in messages.
ghost use Rattle.std.specs.Prelude.{◌≡◌, map, string_bytes};
ghost use Rattle.cdb_show.specs.Message.{input_at, said_input};

/// The name of standard input in messages.
pub const STANDARD_INPUT: &str = "standard input";

/// Returns the name of an input in messages: `STANDARD_INPUT` for `-`.
fn said_input(name: &str) -> &str
    ensures { result.now ≡ said_input name.now }
{
    if name == "-" { STANDARD_INPUT } else { name }
}

/// Returns the name of an input, counted from 1: `STANDARD_INPUT` for each `-`, and for a number
/// past the last name.
pub fn input_at(names: &[String], number: u64) -> &str
    ensures { result.now ≡ input_at (map string_bytes names.now) number }
{
    let at = number.saturating_sub(1) as usize;
    if at >= names.len() {
        return STANDARD_INPUT;
    }
    said_input(names[at].as_str())
}
