ghost use Rattle.std.specs.Prelude.{◌<◌};

use cyp_io::{MemSink, MemSource, Reading, StdSink, StdSource, Writing, read_all, write_all};
use cyp_term::{List, NoMemory};
use std::alloc::Global;
use std::io::Cursor;
use std::test::Fail;

fn list_of<T: Copy>(alloc: Global, items: &[T]) -> Result<List<T>, NoMemory> {
    Ok(List::from_vec(items.to_vec(alloc)?))
}

fn read_text(alloc: Global, step: usize, failing: &[u32], limit: usize) -> Result<Reading, NoMemory>
    requires { 0 < step }
{
    let text = list_of(alloc, b"void f() {")?;
    let mut source = MemSource::new(text, step, list_of(alloc, failing)?);
    read_all(alloc, &mut source, limit)
}

#[test]
fn a_text_is_read_whole_unless_it_is_long_or_a_read_fails(rt: HostRuntime) -> Result<(), Fail> {
    let alloc = rt.alloc();
    let whole = Reading::Whole(list_of(alloc, b"void f() {")?);
    assert_eq!(rt; read_text(alloc, 1, &[], 10)?, whole);
    assert_eq!(rt; read_text(alloc, 10, &[2], 10)?, whole);
    assert_eq!(rt; read_text(alloc, 1, &[], 9)?, Reading::Long);
    assert_eq!(rt; read_text(alloc, 1, &[10], 9)?, Reading::Long);
    assert_eq!(rt; read_text(alloc, 1, &[10], 10)?, Reading::Failed);
    assert_eq!(rt; read_text(alloc, 10, &[1], 10)?, Reading::Failed);
    assert_eq!(rt; read_text(alloc, 1, &[0], 10)?, Reading::Failed);
    Ok(())
}

#[test]
fn a_text_is_written_until_a_write_fails(rt: HostRuntime) -> Result<(), Fail> {
    let alloc = rt.alloc();
    let mut whole = MemSink::new(alloc, 64, 4, list_of(alloc, &[])?)?;
    assert_eq!(rt; write_all(&mut whole, b"void f() {"), Writing::Written);
    assert_eq!(rt; whole.bytes(), b"void f() {".as_slice());
    let mut cut = MemSink::new(alloc, 64, 4, list_of(alloc, &[1])?)?;
    assert_eq!(rt; write_all(&mut cut, b"void f() {"), Writing::Failed);
    assert_eq!(rt; cut.bytes(), b"void".as_slice());
    let mut full = MemSink::new(alloc, 6, 4, list_of(alloc, &[])?)?;
    assert_eq!(rt; write_all(&mut full, b"void f() {"), Writing::Failed);
    assert_eq!(rt; full.bytes(), b"void f".as_slice());
    Ok(())
}

#[test]
fn a_reader_of_std_is_read(rt: HostRuntime) -> Result<(), Fail> {
    let alloc = rt.alloc();
    let mut source = StdSource::new(Cursor::new(b"void f() {"));
    let whole = Reading::Whole(list_of(alloc, b"void f() {")?);
    assert_eq!(rt; read_all(alloc, &mut source, 10)?, whole);
    Ok(())
}

#[test]
fn a_writer_of_std_is_written_until_it_takes_no_more(rt: HostRuntime) -> Result<(), Fail> {
    let mut room = [0u8; 4];
    let mut sink = StdSink::new(Cursor::new(room.as_mut_slice()));
    assert_eq!(rt; write_all(&mut sink, b"void"), Writing::Written);
    assert_eq!(rt; write_all(&mut sink, b" f() {"), Writing::Failed);
    assert_eq!(rt; room.as_slice(), b"void".as_slice());
    Ok(())
}
