// The file of a database that is made: the database itself, or a temporary file.
ghost use Rattle.std.specs.Prelude.{◌↔◌, IsTrue, option_map, string_bytes};
ghost use Rattle.cdb_system.specs.State.{IsInPlace};

/// With this name as temporary file there is none.
const NO_FILE: &str = "-";

/// Returns true if the database is made in the file of its name.
pub fn is_in_place(name: &str, temporary: &Option<String>) -> bool
    ensures { IsTrue result ↔ IsInPlace name.now (option_map string_bytes temporary.now) }
{
    match temporary {
        Some(temporary) => temporary.as_str() == NO_FILE || temporary.as_str() == name,
        None => false,
    }
}
