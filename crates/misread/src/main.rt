// Reads sound and damaged decks, and prints for each its name and the line that its fault becomes, or that it is sound.

#![tactic(auto)]

mod tables;
mod yields;

use decks::{Deck, Unread};
use std::alloc::AllocError;
use std::io;
use std::io::Write;
use tables::{PLAY, Row, TABLES, WORKED};

// Texts that are no lists of whole lines.
const TEXTS: [(&str, &[u8]); 4] = [
    ("empty deck", b""),
    ("line feed alone", b"\n"),
    ("no line feed at the first line", b"01010100000000"),
    (
        "no line feed at the last line",
        b"01010100000000\n02010000000000000000\n0300010000000001\n0301010000000001",
    ),
];

// With the worked example these plays make a deck of 16,384 bytes.
const MOST_PLAYS: usize = 3_241;

// The worked example with so many events to play, and one line after them: decks of about as many bytes as a deck may have.
const LONG_DECKS: [(&str, usize, &str); 4] = [
    ("16,384 bytes", MOST_PLAYS - 1, PLAY),
    (
        "fault at the last line of 16,384 bytes",
        MOST_PLAYS - 1,
        "06g0",
    ),
    ("16,386 bytes", MOST_PLAYS, "0"),
    ("16,389 bytes", MOST_PLAYS, PLAY),
];

// Prints what reading a text comes to.
fn show(rt: &HostRuntime, name: &str, text: &[u8]) -> io::Result<()> {
    let mut out = rt.stdout();
    print!(out; "{name}: ")?;
    match Deck::read(rt.alloc(), text) {
        Ok(_) => println!(out; "sound"),
        Err(Unread::Faulty(fault)) => out.write_all(&fault.reply()),
        Err(Unread::OutOfMemory) => println!(out; "out of memory"),
    }
}

// Adds lines to a text, each with its line feed.
fn add_lines(text: &mut Vec<u8>, lines: &[&str]) -> Result<(), AllocError> {
    for line in lines {
        text.extend_from_slice(line.as_bytes())?;
        text.push(b'\n')?;
    }
    Ok(())
}

// The decks of a table.
fn show_table(rt: &HostRuntime, table: &[Row]) -> io::Result<()> {
    for (name, lines) in table {
        let mut text = Vec::new(rt.alloc());
        add_lines(&mut text, lines)?;
        show(rt, name, text.as_slice())?;
    }
    Ok(())
}

fn show_long(rt: &HostRuntime, name: &str, plays: usize, last: &str) -> io::Result<()> {
    let mut text = Vec::new(rt.alloc());
    add_lines(&mut text, &WORKED)?;
    for _ in 0..plays {
        add_lines(&mut text, &[PLAY])?;
    }
    add_lines(&mut text, &[last])?;
    show(rt, name, text.as_slice())
}

fn main(rt: HostRuntime) -> io::Result<()> {
    for table in TABLES {
        show_table(&rt, table)?;
    }
    for (name, text) in TEXTS {
        show(&rt, name, text)?;
    }
    for (name, plays, last) in LONG_DECKS {
        show_long(&rt, name, plays, last)?;
    }
    yields::print_parts(&rt)
}
