// A `FormReader` that takes removals gives what an `AmendReader` gives.
use super::fakes::{Behind, FakeReader};
use cdb_form::{AmendReader, FormReader, Narrow, Record};
use std::alloc::Global;
use std::prelude::*;

/// More calls than any reader here has items.
const CALLS: usize = 9;

/// Returns the number of items that an amending text has, if both readers give the same ones, the
/// same end or fault after them, and leave the same bytes. The key of each item is compared.
fn items(alloc: Global, text: &[u8], behind: Behind) -> Option<usize> {
    let mut old: AmendReader<FakeReader<'_>, Narrow> = AmendReader::new(
        alloc,
        FakeReader::new(text, behind),
    );
    let mut form: FormReader<FakeReader<'_>, Narrow> = FormReader::new(
        FakeReader::new(text, behind),
        1 << 48,
    );
    let (mut wanted, mut given) = (Record::empty(alloc), Record::empty(alloc));
    for count in 0..CALLS {
        let answer = old.read_into(&mut wanted);
        if form.read_into(&mut given, true) != answer {
            return None;
        }
        if !matches!(answer, Ok(Some(_))) {
            let is_left = form.into_reader().text == old.into_reader().text;
            return is_left.then_some(count);
        }
        if given.key.as_slice() != wanted.key.as_slice() {
            return None;
        }
    }
    None
}

/// Amending texts, what their reader does after them, and how many items they have.
const ITEMS: [(&[u8], Behind, usize); 5] = [
    (b"+3,5:one->Hello\n-3:two\n\nrest", Behind::End, 2),
    (b"+3,5:one->Hello\n-3:tw", Behind::End, 1),
    (b"+3,5:one->Hello\n-3:tw", Behind::Failure, 1),
    (b"+3,5:one->Hello\n*", Behind::End, 1),
    (b"+3,5:one->Hello", Behind::Failure, 0),
];

#[test]
fn items_of_a_form_reader_are_those_of_an_amend_reader(rt: HostRuntime) {
    for &(text, behind, count) in &ITEMS {
        let given = items(rt.alloc(), text, behind);
        assert!(rt; given == Some(count), "{text:?}");
    }
}
