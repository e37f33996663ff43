// The text that says how the program is called.
ghost use Rattle.std.specs.Prelude.{OnErr};
ghost use Rattle.cdb_form.specs.Views.KnownBytes.{Writes};
ghost use Rattle.cdb_command.specs.Usage.{usage_text, version_text};

use cdb_form::{OutFault, Sink, write_pieces, write_whole};

/// Writes the usage text. After an `OutFault` the writer holds a prefix of it.
pub fn write_usage<W: Sink>(w: &mut W) -> Result<(), OutFault>
    ensures writes { Writes result (W.contents w.old) (W.contents w.new) usage_text }
    ensures failed { OnErr result (W.failed w.new) }
{
    let lines: [&[u8]; 31] = [
        b"usage: cdb -q [-W] [-m] [-n number] database key\n",
        b"       cdb -q -i [-W] [-m] [-n number] database [input ...]\n",
        b"       cdb -d [-W] [-m] [database]\n",
        b"       cdb -l [-W] [-m] [database]\n",
        b"       cdb -s [-W] [database]\n",
        b"       cdb -c [-W] [-m] [-t temporary] [-b base] [-weru] database [input ...]\n",
        b"       cdb -k [-W] [database]\n",
        b"       cdb -D [-W] old new\n",
        b"       cdb -h\n",
        b"       cdb -V\n",
        b"       with each: -v  say which file and why\n",
        b"\n",
        b"  -q  query: write the values of a key\n",
        b"  -d  dump: write all records\n",
        b"  -l  list: write all keys\n",
        b"  -s  write statistics\n",
        b"  -c  create a database from texts\n",
        b"  -k  check a database\n",
        b"  -D  write what changed between two databases\n",
        b"  -h  write the usage\n",
        b"  -V  write the version\n",
        b"  -n  write only the value with this number\n",
        b"  -m  read or write a map, a key and a value a line\n",
        b"  -i  look up all keys of the inputs\n",
        b"  -t  build in this file\n",
        b"  -b  amend this database\n",
        b"  -w  report duplicate keys\n",
        b"  -e  stop at a duplicate key\n",
        b"  -r  a record replaces those of its key\n",
        b"  -u  leave out duplicate keys\n",
        b"  -W  use words of 8 bytes, for files above 4 GiB\n",
    ];
    write_pieces(w, &lines)
}

/// The version of the program.
const VERSION: &[u8] = b"cdb 1.4.0~dev (Pezundrix)\n";

/// Writes the name of the program and its version. After an `OutFault` the writer holds a prefix of
/// that.
pub fn write_version<W: Sink>(w: &mut W) -> Result<(), OutFault>
    ensures writes { Writes result (W.contents w.old) (W.contents w.new) version_text }
    ensures failed { OnErr result (W.failed w.new) }
{
    write_whole(w, VERSION)
}
