// Tests of the files, sinks and random sources in pme_base.
ghost use Rattle.std.specs.Prelude.{None};

use pme_base::{
    Bytes, Failed, Files, MemFiles, MemRandom, MemSink, NameSet, Place, PlaceKind, Random,
    Sequence, Sink, StdFiles, StdRandom, StdSink, Text, Trouble, Words, read_full,
};
use std::fs;
use std::test::Fail;

#[test]
fn lists_of_bytes_and_words_hold_what_was_added(rt: HostRuntime) -> Result<(), Fail> {
    let mut bytes = Bytes::new(rt.alloc());
    bytes.push(b'a')?;
    bytes.extend(b"bc")?;
    assert_eq!(rt; bytes.as_slice(), b"abc".as_slice());
    let mut words = Words::new(rt.alloc());
    words.push("module")?;
    words.push("--key")?;
    assert_eq!(rt; words.len(), 2);
    assert_eq!(rt; words.get(1), Some("--key"));
    assert_eq!(rt; words.get(2), None);
    let text = Text::copy_of(rt.alloc(), "--key")?;
    assert!(rt; words.as_slice().get(1) == Some(&text));
    Ok(())
}

#[test]
fn a_set_of_names_detects_new_names_and_a_list_is_taken_apart(rt: HostRuntime) -> Result<(), Fail> {
    let mut names = NameSet::new(rt.alloc());
    let mut list = Sequence::new(rt.alloc());
    for name in ["id", "name", "id", ""] {
        list.push(names.add(name.as_bytes())?)?;
    }
    let mut rest = list.into_items();
    for new in [true, true, false, true] {
        assert_eq!(rt; rest.next(), Some(new));
    }
    assert_eq!(rt; rest.next(), None);
    Ok(())
}

#[test]
fn ordinals_end_at_32767(rt: HostRuntime) -> Result<(), Fail> {
    let kind = PlaceKind::DataPage;
    let place = Place::at_page(kind, 0, 1, 32_767)?;
    assert_eq!(rt; (place.row_group, place.column, place.page), (0, 1, 32_767));
    assert!(rt; Place::at_page(kind, 0, 1, 32_768).is_err());
    assert!(rt; Place::at_column(PlaceKind::ColumnIndex, 32_768, 0).is_err());
    assert_eq!(rt; Place::at_column(PlaceKind::ColumnIndex, 2, 3)?.column, 3);
    Ok(())
}

#[test]
fn files_in_memory_are_published_whole(rt: HostRuntime) -> Result<(), Fail> {
    let mut files = MemFiles::new(rt.alloc());
    files.store("a", b"older")?;
    files.begin()?;
    files.append(b"new")?;
    files.append(b" bytes")?;
    assert_eq!(rt; files.held("a"), Some(b"older".as_slice()));
    files.publish("a")?;
    assert_eq!(rt; files.held("a"), Some(b"new bytes".as_slice()));
    assert_eq!(rt; files.held("b"), None);
    assert_eq!(rt; files.size("a")?, Some(9));
    assert_eq!(rt; files.size("b")?, None);
    let mut into = [0u8; 8];
    assert_eq!(rt; files.read_at("a", 4, &mut into)?, 5);
    assert_eq!(rt; into, *b"bytes\0\0\0");
    assert_eq!(rt; files.read_at("a", 9, &mut into)?, 0);
    assert_eq!(rt; files.read_at("b", 0, &mut into)?, 0);
    files.publish("a")?;
    assert_eq!(rt; files.size("a")?, Some(0));
    assert_eq!(rt; (files.largest_read(), files.largest_append()), (8, 6));
    Ok(())
}

#[test]
fn a_call_fails_where_it_is_set_to(rt: HostRuntime) -> Result<(), Fail> {
    for call in 0..5u64 {
        let mut files = MemFiles::new(rt.alloc());
        files.store("a", b"abc")?;
        files.fail(call)?;
        let answers = [
            files.size("a") == Err(Trouble::Failed),
            files.read_at("a", 0, &mut [0]) == Err(Trouble::Failed),
            files.begin() == Err(Trouble::Failed),
            files.append(b"def") == Err(Trouble::Failed),
            files.publish("a") == Err(Trouble::Failed),
        ];
        for (number, failed) in answers.iter().enumerate() {
            assert_eq!(rt; *failed, number as u64 == call, "call {number}, set {call}");
        }
    }
    Ok(())
}

#[test]
fn a_source_in_memory_gives_its_bytes_once(rt: HostRuntime) -> Result<(), Fail> {
    let mut random = MemRandom::new(rt.alloc(), Bytes::copy_of(rt.alloc(), &[1, 2, 3, 4, 5])?);
    random.fail(1)?;
    let mut into = [0u8; 2];
    random.fill(&mut into)?;
    assert_eq!(rt; into, [1, 2]);
    assert_eq!(rt; random.fill(&mut into), Err(Failed));
    random.fill(&mut into)?;
    assert_eq!(rt; into, [3, 4]);
    assert_eq!(rt; random.fill(&mut into), Err(Failed));
    Ok(())
}

#[test]
fn a_sink_in_memory_keeps_all_that_was_put(rt: HostRuntime) -> Result<(), Fail> {
    let mut sink = MemSink::new(rt.alloc());
    sink.fail(1)?;
    sink.put(b"one ")?;
    assert_eq!(rt; sink.put(b"two "), Err(Trouble::Failed));
    sink.put(b"three")?;
    assert_eq!(rt; sink.bytes(), b"one three".as_slice());
    Ok(())
}

/// Files in which every name has the bytes 0, 1, 2, 3 and 4. A read gives one byte; at
/// offset `faulty` and after it, it fails.
#[derive(Drop)]
struct Trickle {
    faulty: u64,
    given: u64,
    faults: u64,
}

impl Files for Trickle {
    ghost published = { λ _. None };

    ghost pending = { λ _. None };

    ghost given = { λ t. t.given };

    ghost faults = { λ t. t.faults };

    ghost bytes = { λ _. tt };

    ghost pending_bytes = { λ _. tt };

    fn size(&mut self, _name: &str) -> Result<Option<u64>, Trouble> {
        Ok(Some(5))
    }

    fn read_at(&mut self, _name: &str, at: u64, into: &mut [u8]) -> Result<usize, Trouble> {
        if at >= self.faulty {
            self.faults = self.faults.saturating_add(1);
            return Err(Trouble::Failed);
        }
        let count = if at < 5 && !into.is_empty() {
            into[0] = at as u8;
            1
        } else {
            0
        };
        self.given = self.given.saturating_add(count as u64);
        Ok(count)
    }

    fn begin(&mut self) -> Result<(), Trouble> {
        Ok(())
    }

    fn append(&mut self, _bytes: &[u8]) -> Result<(), Trouble> {
        Ok(())
    }

    fn publish(&mut self, _name: &str) -> Result<(), Trouble> {
        Ok(())
    }
}

#[test]
fn short_reads_are_joined(rt: HostRuntime) {
    for (faulty, at, answer) in [
        (9, 0, Ok(4)),
        (9, 2, Ok(3)),
        (9, 5, Ok(0)),
        (9, 9, Err(Trouble::Failed)),
        (2, 0, Err(Trouble::Failed)),
        (4, 0, Ok(4)),
    ] {
        let mut files = Trickle {
            faulty,
            given: 0,
            faults: 0,
        };
        let mut into = [7u8; 4];
        assert_eq!(rt; read_full(&mut files, "", at, &mut into), answer);
        if at == 2 {
            assert_eq!(rt; into, [2, 3, 4, 7]);
        }
    }
}

#[test]
fn files_of_the_system_are_published_whole(rt: HostRuntime) -> Result<(), Fail> {
    let name = "pme-base-test.tmp";
    let mut files = StdFiles::new(rt.alloc(), rt);
    let mut into = [0u8; 4];
    for (text, part) in [("first text", *b"rst "), ("second text", *b"cond")] {
        files.begin()?;
        files.append(text.as_bytes())?;
        files.publish(name)?;
        assert_eq!(rt; files.size(name)?, Some(text.len() as u64));
        for (at, count) in [(0, 4), (2, 4), (20, 0), (u64::MAX, 0)] {
            assert_eq!(rt; read_full(&mut files, name, at, &mut into)?, count);
            if at == 2 {
                assert_eq!(rt; into, part);
            }
        }
    }
    fs::remove_file(&rt, name)?;
    assert_eq!(rt; files.size(name)?, None);
    Ok(())
}

#[test]
fn random_bytes_of_the_system_differ(rt: HostRuntime) -> Result<(), Fail> {
    let mut random = StdRandom::new(rt);
    let mut one = [0u8; 32];
    let mut two = [0u8; 32];
    random.fill(&mut one)?;
    random.fill(&mut two)?;
    assert_ne!(rt; one, two);
    Ok(())
}

#[test]
fn a_sink_of_the_system_writes_all(rt: HostRuntime) -> Result<(), Fail> {
    let name = "pme-base-sink.tmp";
    let mut sink = StdSink::new(fs::create(&rt, name)?);
    sink.put(b"one ")?;
    sink.put(b"two")?;
    assert_eq!(rt; fs::read(&rt, name)?.as_slice(), b"one two".as_slice());
    fs::remove_file(&rt, name)?;
    Ok(())
}
