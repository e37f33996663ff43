//! The file format of constant databases: its words and tables, its native text, and
//! the larger text that amends a database.
//!
//! The format is defined once, in `specs/`: `Format` is the file of a list of records, what bytes
//! read as, and what records any bytes hold and where they are damaged; `Text` is the grammar of
//! the text. The contracts of this crate cite these definitions, for words of 4 bytes (`Narrow`)
//! and of 8 bytes (`Wide`).
#![tactic(auto)]

mod copying;
mod damage;
mod feeds;
mod head;
mod header;
mod item;
mod key_hash;
pub mod laws;
mod mode;
mod pair;
mod reading;
mod reading_whole;
mod record;
mod slot;
mod table;
mod text;
mod walk;
mod width;
mod writing;

pub use damage::Damage;
pub use feeds::Feeds;
pub use head::{
    GREATEST_HEAD, Head, Pointer, head_size, read_head, read_pointer, write_head, write_pointer,
};
pub use header::{Header, read_header, write_header};
pub use item::{Item, ItemKind};
pub use key_hash::{hash, hash_more, home_slot, table_number};
pub use mode::Mode;
pub use pair::{GREATEST_PAIR, pair_size};
pub use reading::PIPE;
pub use reading_whole::{Extent, InFault, read_whole};
pub use record::{PeekedRecord, Record};
pub use slot::{Slot, read_slot, write_slot};
pub use table::put_entry;
pub use text::amend_reader::AmendReader;
pub use text::amend_writer::write_removal;
pub use text::at_hand::{AtHand, NoneAtHand};
pub use text::fault::TextFault;
pub use text::fill::{Filled, fill, fill_one};
pub use text::form_reader::FormReader;
pub use text::list_reader::ListReader;
pub use text::list_writer::{write_list_record, write_map_key};
pub use text::long_value::Next;
pub use text::map_reader::MapReader;
pub use text::map_writer::write_map_record;
pub use text::native_reader::TextReader;
pub use text::native_writer::{write_end, write_record};
pub use walk::fault::WalkFault;
pub use walk::prefix::record_len;
pub use walk::record_reader::RecordReader;
pub use width::{Narrow, Wide, Width};
pub use writing::{OutFault, Sink, flush_whole, write_pieces, write_some, write_whole};
