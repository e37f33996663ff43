// The words for the system's errors.
ghost use Rattle.std.specs.Prelude.{◌≡◌, option_map};
ghost use Rattle.cdb_system.specs.Causes.{high_errors, system_words, words_at};

/// Returns the words for the error of this number, the same in each locale.
pub(crate) fn system_words(number: i32) -> Option<&'static str>
    ensures { option_map (λ words. words.now) result ≡ system_words number }
{
    match number {
        1 => Some("Operation not permitted"),
        2 => Some("No such file or directory"),
        4 => Some("Interrupted system call"),
        5 => Some("Input/output error"),
        6 => Some("No such device or address"),
        7 => Some("Argument list too long"),
        9 => Some("Bad file descriptor"),
        11 => Some("Resource temporarily unavailable"),
        12 => Some("Cannot allocate memory"),
        13 => Some("Permission denied"),
        16 => Some("Device or resource busy"),
        17 => Some("File exists"),
        18 => Some("Invalid cross-device link"),
        19 => Some("No such device"),
        20 => Some("Not a directory"),
        21 => Some("Is a directory"),
        22 => Some("Invalid argument"),
        23 => Some("Too many open files in system"),
        24 => Some("Too many open files"),
        26 => Some("Text file busy"),
        27 => Some("File too large"),
        28 => Some("No space left on device"),
        29 => Some("Illegal seek"),
        _ => late_words(number),
    }
}

/// Returns the words for an error of a greater number, from 30 up.
fn late_words(number: i32) -> Option<&'static str>
    ensures { option_map (λ words. words.now) result ≡ words_at high_errors number }
{
    match number {
        30 => Some("Read-only file system"),
        31 => Some("Too many links"),
        32 => Some("Broken pipe"),
        35 => Some("Resource deadlock avoided"),
        36 => Some("File name too long"),
        37 => Some("No locks available"),
        38 => Some("Function not implemented"),
        39 => Some("Directory not empty"),
        40 => Some("Too many levels of symbolic links"),
        75 => Some("Value too large for defined data type"),
        95 => Some("Operation not supported"),
        110 => Some("Connection timed out"),
        116 => Some("Stale file handle"),
        122 => Some("Disk quota exceeded"),
        _ => None,
    }
}
