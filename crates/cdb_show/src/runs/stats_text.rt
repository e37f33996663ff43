// The text of statistics.
ghost use Rattle.std.specs.Prelude.{OnErr, ◌++◌, codes, decimal};
ghost use Rattle.cdb_form.specs.Views.KnownBytes.{Writes};
ghost use Rattle.cdb_show.specs.Runs.Stats.{count_line, triple_line, distance_lines, stats_text};

use cdb_form::{OutFault, Sink, write_pieces};
use cdb_read::Stats;
use itoa::Buffer;

/// Writes a line of a number. After an `OutFault` the writer holds a prefix of it.
fn write_count<W: Sink>(words: &[u8], count: u64, w: &mut W) -> Result<(), OutFault>
    ensures writes { Writes result (W.contents w.old) (W.contents w.new) (count_line words.now count) }
    ensures failed { OnErr result (W.failed w.new) }
{
    let mut digits = Buffer::new();
    let count = digits.format(count).as_bytes();
    write_pieces(w, &[words, b": ", count, b"\n"])
}

/// Writes a line of three numbers. After an `OutFault` the writer holds a prefix of it.
fn write_triple<W: Sink>(
    words: &[u8],
    first: u64,
    second: u64,
    third: u64,
    w: &mut W,
) -> Result<(), OutFault>
    ensures writes { Writes result (W.contents w.old) (W.contents w.new) (triple_line words.now first second third) }
    ensures failed { OnErr result (W.failed w.new) }
{
    let mut digits = (Buffer::new(), Buffer::new(), Buffer::new());
    let first = digits.0.format(first).as_bytes();
    let second = digits.1.format(second).as_bytes();
    let third = digits.2.format(third).as_bytes();
    write_pieces(w, &[words, b": ", first, b"/", second, b"/", third, b"\n"])
}

/// Writes the line of a distance below 10. After an `OutFault` the writer holds a prefix of it.
fn write_distance<W: Sink>(distance: usize, count: u64, w: &mut W) -> Result<(), OutFault>
    ensures writes { Writes result (W.contents w.old) (W.contents w.new) (count_line (codes "distance " ++ decimal distance) count) }
    ensures failed { OnErr result (W.failed w.new) }
{
    let (mut distances, mut counts) = (Buffer::new(), Buffer::new());
    let distance = distances.format(distance).as_bytes();
    let count = counts.format(count).as_bytes();
    write_pieces(w, &[b"distance ", distance, b": ", count, b"\n"])
}

/// Writes the lines of all distances. After an `OutFault` the writer holds a prefix of them.
fn write_distances<W: Sink>(counts: &[u64; 11], w: &mut W) -> Result<(), OutFault>
    ensures writes { Writes result (W.contents w.old) (W.contents w.new) (distance_lines counts.now) }
    ensures failed { OnErr result (W.failed w.new) }
{
    for distance in 0..10usize {
        write_distance(distance, counts[distance], w)?;
    }
    write_count(b"distance 10 or more", counts[10], w)
}

/// Writes the text of statistics. After an `OutFault` the writer holds a prefix of it.
pub(crate) fn write_stats<W: Sink>(stats: &Stats, w: &mut W) -> Result<(), OutFault>
    ensures writes { Writes result (W.contents w.old) (W.contents w.new) (stats_text stats.now) }
    ensures failed { OnErr result (W.failed w.new) }
{
    write_count(b"records", stats.records, w)?;
    let words = b"key lengths least/average/greatest";
    write_triple(
        words,
        stats.key_least,
        stats.key_average,
        stats.key_greatest,
        w,
    )?;
    let words = b"value lengths least/average/greatest";
    write_triple(
        words,
        stats.value_least,
        stats.value_average,
        stats.value_greatest,
        w,
    )?;
    let words = b"tables/entries/collisions";
    write_triple(words, stats.tables, stats.entries, stats.collisions, w)?;
    let words = b"table sizes least/average/greatest";
    write_triple(
        words,
        stats.size_least,
        stats.size_average,
        stats.size_greatest,
        w,
    )?;
    write_distances(&stats.distances, w)
}
