// The names that callers of the libraries are promised, each used once with its types.
use cdb_form::{
    AmendReader, Header, Item, MapReader, Narrow, OutFault, Pointer, Record, RecordReader, Slot,
    TextFault, TextReader, WalkFault, hash, read_head, read_header, read_slot, write_end,
    write_head, write_header, write_list_record, write_map_key, write_map_record, write_record,
    write_slot, write_whole,
};
use cdb_make::{MakeFault, Maker, Mode, Put, Refused, Unfinished};
use cdb_read::{Finder, Pair, ReadFault, Reader, Span, Stats, Unread, Walk, check, stats, walk};
use cdb_store::{FileStore, FuseStore, MemStore, Store, StoreFault};
use cdb_tool::{
    Command, Fault, MakeOptions, Style, Usage, check_run, dump_run, list_run, load, make_bytes,
    make_run, plan, query_run, stats_run, status_of, write_fault, write_usage,
};
use std::alloc::{AllocError, Global};
use std::prelude::*;
use std::test::Fail;

/// A text of one record.
const ONE: &[u8] = b"+1,1:a->1\n\n";

/// Its database.
fn one_file(alloc: Global) -> Result<Vec<u8>, Fail> {
    let mut out = Vec::new(alloc);
    make_bytes::<Narrow, &[u8], Vec<u8>>(alloc, ONE, &mut out)?;
    Ok(out)
}

#[test]
fn stores_and_words_have_their_names(rt: HostRuntime) -> Result<(), Fail> {
    let mut store: FuseStore<MemStore> = FuseStore::new(MemStore::new(rt.alloc()), u64::MAX, 0);
    let written: Result<(), StoreFault> = store.write_at(0, b"abc");
    assert!(rt; written == Ok(()) && store.len() == 3);
    assert!(rt; (store.calls(), store.written()) == (1, 3));
    assert!(rt; store.into_inner().bytes() == b"abc".as_slice());
    let (header, slot) = (
        Header { klen: 1, vlen: 2 },
        Slot {
            hash: u64::from(hash(b"a")),
            place: 2048,
        },
    );
    let mut bytes = [0u8; 8];
    write_header::<Narrow>(header, &mut bytes);
    assert!(rt; read_header::<Narrow>(&bytes) == header);
    write_slot::<Narrow>(slot, &mut bytes);
    assert!(rt; read_slot::<Narrow>(&bytes) == slot);
    Ok(())
}

#[test]
fn a_file_has_its_names(rt: HostRuntime) -> Result<(), Fail> {
    let mut made: FileStore = FileStore::create(&rt, "surface.cdb")?;
    made.write_at(0, b"abc")?;
    made.flush()?;
    let mut opened: FileStore = FileStore::open(&rt, "surface.cdb")?;
    let mut bytes = [0u8; 3];
    if opened.len() == 3 {
        opened.read_at(0, &mut bytes)?;
    }
    assert!(rt; &bytes == b"abc");
    Ok(())
}

#[test]
fn heads_have_their_names(rt: HostRuntime) -> Result<(), Fail> {
    let file = one_file(rt.alloc())?;
    let Some(first) = file.get(..2048) else {
        return Err(Fail::new("no head"));
    };
    let head = read_head::<Narrow>(first);
    let table: Pointer = head.pointers[196];
    assert!(rt; table.slots == 2);
    let mut again = vec![in rt.alloc(); 0u8; 2048]?;
    write_head::<Narrow>(&head, &mut again);
    assert!(rt; again.as_slice() == first);
    Ok(())
}

/// The record of a text, by each reader.
fn read(alloc: Global) -> Result<[Option<Record>; 3], Fail> {
    let mut native: TextReader<&[u8], Narrow> = TextReader::new(alloc, ONE);
    let of_text: Result<Option<Record>, TextFault> = native.next();
    let mut map: MapReader<&[u8]> = MapReader::new(alloc, b"a 1\n");
    let of_map: Result<Option<Record>, TextFault> = map.next();
    let file = one_file(alloc)?;
    let mut records: RecordReader<&[u8], Narrow> = RecordReader::new(alloc, file.as_slice());
    let of_file: Result<Option<Record>, WalkFault> = records.next();
    Ok([of_text?, of_map?, of_file?])
}

#[test]
fn readers_have_their_names(rt: HostRuntime) -> Result<(), Fail> {
    for record in &read(rt.alloc())? {
        let Some(record) = record else {
            return Err(Fail::new("no record"));
        };
        assert!(rt; record.key.as_slice() == b"a".as_slice());
        assert!(rt; record.value.as_slice() == b"1".as_slice());
    }
    let mut items: AmendReader<&[u8], Narrow> = AmendReader::new(rt.alloc(), b"-1:a\n\n");
    let Some(Item::Remove(key)) = items.next()? else {
        return Err(Fail::new("no removal"));
    };
    assert!(rt; key.as_slice() == b"a".as_slice());
    Ok(())
}

#[test]
fn writers_have_their_names(rt: HostRuntime) -> Result<(), Fail> {
    let mut out = Vec::new(rt.alloc());
    let written: Result<(), OutFault> = write_whole(&mut out, b"# ");
    written?;
    write_record(&mut out, b"a", b"1")?;
    write_list_record(&mut out, b"a")?;
    write_end(&mut out)?;
    write_map_record(&mut out, b"a", b"1")?;
    write_map_key(&mut out, b"a")?;
    assert!(rt; out.as_slice() == b"# +1,1:a->1\n+1:a\n\na 1\na\n".as_slice());
    Ok(())
}

/// A maker of one record.
fn made(alloc: Global) -> Result<MemStore, Fail> {
    let mut maker: Maker<MemStore, Narrow> = match Maker::new(
        alloc,
        MemStore::new(alloc),
        4294967295,
    ) {
        Ok(maker) => maker,
        Err(Refused { fault, .. }) => return Err(fault.into()),
    };
    let put: Result<Put, MakeFault> = maker.put(Mode::Replace, b"a", b"1");
    let removed: Result<u64, MakeFault> = maker.remove(b"b");
    let is_there: Result<bool, MakeFault> = maker.exists(b"a");
    if (put?, removed?, is_there?) != (Put::Added, 0, true) || maker.is_broken() {
        return Err(Fail::new("another answer"));
    }
    if (maker.count(), maker.size()) != (1, 2074) {
        return Err(Fail::new("another size"));
    }
    match maker.finish() {
        Ok(store) => Ok(store),
        Err(Unfinished { fault, .. }) => Err(fault.into()),
    }
}

/// What a reader of its file answers.
fn asked(alloc: Global) -> Result<(Option<Span>, Option<Pair>, Stats), Fail> {
    let mut reader: Reader<MemStore, Narrow> = match Reader::open(made(alloc)?) {
        Ok(reader) => reader,
        Err(Unread { fault, .. }) => return Err(fault.into()),
    };
    let mut finder: Finder<'_, MemStore, Narrow> = reader.find(b"a");
    let found: Result<Option<Span>, ReadFault> = finder.next();
    let mut records: Walk<'_, MemStore, Narrow> = walk(&mut reader);
    let walked: Result<Option<Pair>, ReadFault> = records.next();
    check(alloc, &mut reader)?;
    Ok((found?, walked?, stats(&mut reader)?))
}

#[test]
fn makers_and_readers_have_their_names(rt: HostRuntime) -> Result<(), Fail> {
    let value = Span {
        place: 2057,
        len: 1,
    };
    let key = Span {
        place: 2056,
        len: 1,
    };
    let (found, walked, counted) = asked(rt.alloc())?;
    assert!(rt; found == Some(value));
    assert!(rt;
        walked
            == Some(Pair {
                place: 2048,
                key,
                value
            })
    );
    assert!(rt; counted.records == 1);
    Ok(())
}

/// The file of a text, made by a run over a store.
fn made_by_run(alloc: Global) -> Result<MemStore, Fail> {
    let options = MakeOptions {
        mode: Mode::Add,
        warn: false,
        stop: false,
        style: Style::Native,
        limit: 4294967295,
    };
    let (mut inputs, mut errors) = (Vec::new(alloc), Vec::new(alloc));
    inputs.push(ONE)?;
    let base: Option<MemStore> = None;
    let (store, _, answer) = make_run::<Narrow, MemStore, MemStore, &[u8], Vec<u8>>(
        alloc,
        MemStore::new(alloc),
        base,
        inputs,
        options,
        &mut errors,
    );
    answer?;
    Ok(store)
}

/// What the runs that read a file write of it, one after another.
fn shown(alloc: Global) -> Result<Vec<u8>, Fail> {
    let mut out = Vec::new(alloc);
    let file = one_file(alloc)?;
    dump_run::<Narrow, &[u8], Vec<u8>>(alloc, file.as_slice(), Style::Native, &mut out)?;
    list_run::<Narrow, &[u8], Vec<u8>>(alloc, file.as_slice(), Style::Map, &mut out)?;
    let store: MemStore = load(alloc, file.as_slice(), 4294967295)?;
    let (store, checked) = check_run::<Narrow, MemStore>(alloc, store);
    checked?;
    let (store, queried) = query_run::<Narrow, MemStore, Vec<u8>>(
        store,
        b"a",
        Some(1),
        true,
        &mut out,
    );
    queried?;
    let mut statistics = Vec::new(alloc);
    stats_run::<Narrow, MemStore, Vec<u8>>(store, &mut statistics).1?;
    if statistics.is_empty() {
        return Err(Fail::new("no statistics"));
    }
    Ok(out)
}

#[test]
fn runs_have_their_names(rt: HostRuntime) -> Result<(), Fail> {
    let made = made_by_run(rt.alloc())?;
    assert!(rt; made.bytes() == one_file(rt.alloc())?.as_slice());
    let out = shown(rt.alloc())?;
    assert!(rt; out.as_slice() == b"+1,1:a->1\n\na\n1\n".as_slice());
    Ok(())
}

/// The words of a query.
fn words(alloc: Global) -> Result<Vec<String>, AllocError> {
    let mut words = Vec::new(alloc);
    for word in ["cdb", "-q", "map", "a"] {
        words.push(String::from_str(alloc, word)?)?;
    }
    Ok(words)
}

#[test]
fn the_command_line_has_its_names(rt: HostRuntime) -> Result<(), Fail> {
    let planned: Result<Command, Usage> = plan(rt.alloc(), words(rt.alloc())?);
    let Ok(command) = planned else {
        return Err(Fail::new("no command"));
    };
    assert!(rt; matches!(&command, Command::Query { number: None, .. }));
    assert!(rt; status_of(&command, &Fault::Missing) == 100);
    let mut lines = Vec::new(rt.alloc());
    write_fault(&Fault::Missing, &mut lines)?;
    write_usage(&mut lines)?;
    assert!(rt; lines.len() > 100);
    Ok(())
}
