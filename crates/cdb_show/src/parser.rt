// A parser of an input, as clauses see it.
ghost use Rattle.cdb_show.specs.Feed.{Parsing};

/// A parser of one input, as clauses see it: the function that it computes of bytes, and the
/// relations that the clauses of its calls use.
pub trait InputParser {
    /// The type of the items that it reads.
    type Item;

    /// The type of the reasons why an input is not a text that it reads.
    type Fault;

    /// The function that it computes of bytes, and the relations that its calls' clauses use.
    ghost parsing: { Self → Parsing Self.Item Self.Fault };
}
