// A row written: its fields, and what each call answered.
use crate::case::Row;
use crate::marks::{MARK, word_marks};
use crate::{calls, frame};
use std::io;

fn sends(rt: &impl Print, row: &Row) -> io::Result<()> {
    let midi = calls::midi_sent(row);
    let serial = calls::serial_sent(row, &[0xA5; 4097]);
    print!(rt; " {midi} {serial}")
}

fn frames(rt: &impl Print, row: &Row) -> io::Result<()> {
    let mut ring = word_marks();
    let given = calls::given(row, &[1; 13], &mut ring);
    let taken = calls::taken(row, &ring);
    print!(rt; " {given} {taken}")
}

fn accesses(rt: &impl Print, row: &Row) -> io::Result<()> {
    let mut page = [MARK; 4097];
    let read = calls::device_read(row, &page);
    let written = calls::device_written(row, &mut page);
    print!(rt; " {read} {written}")
}

pub fn rows(rt: &impl Print, rows: &[Row]) -> io::Result<()> {
    for row in rows {
        let framed = frame::microframe(row);
        print!(rt; "{row}: {framed}")?;
        sends(rt, row)?;
        frames(rt, row)?;
        accesses(rt, row)?;
        println!(rt; "")?;
    }
    Ok(())
}

// Number 3 of `new`.
pub fn created(rt: &impl Print, spans: usize) -> io::Result<()> {
    let mut settings = usbhost::no_settings();
    settings.spans = spans;
    let number = calls::number(usbhost::Host::new(settings).err());
    println!(rt; "new with gone spans {spans}: {number}")
}
