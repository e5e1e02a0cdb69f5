//! Pages at their edges: the page of each card of a small deck is written into buffers of every length from 0
//! on, full of dots before, and printed with a slash for each line feed.
#![tactic(auto)]

use address::Address;
use anyhow::anyhow;
use deck_text::Writer;
use decks::Shelf;
use packed::PackedRun;
use page::write_page;
use places::find_place;
use shelf_file::FileShelf;
use std::alloc::Global;
use store::Store;

/// The bytes, with a slash for each line feed.
fn print_bytes(rt: &HostRuntime, front: &str, bytes: &[u8]) -> anyhow::Result<()> {
    let mut line = String::new(rt.alloc());
    for b in bytes {
        let c = if *b == b'\n' { '/' } else { char::from(*b) };
        line.push(c)?;
    }
    println!(rt; "{front} [{line}]")?;
    Ok(())
}

/// The page of the card at an address, written into so much room.
fn show<S: Store, H: Shelf>(
    rt: &HostRuntime,
    store: &S,
    shelf: &H,
    address: &Address,
    buf: &mut [u8],
) -> anyhow::Result<()> {
    let heap = rt.alloc();
    let room = buf.len();
    let Some(place) = find_place(shelf, address) else {
        return Err(anyhow!("no such deck"));
    };
    let front = match write_page(store, &place, buf) {
        Ok(shown) => {
            let len = shown.len;
            let labels = shown.labels;
            format!(in heap; "{room}: length {len}, labels {labels}")?
        }
        Err(fault) => {
            let number = fault.number();
            format!(in heap; "{room}: refused {number}")?
        }
    };
    print_bytes(rt, front.as_str(), buf)
}

/// The shelf file of a deck with a card of labels of every sort, one with a broken body, and one
/// whose body is filled with nothing.
fn shelf_file(heap: Global) -> anyhow::Result<Vec<u8>> {
    let lines = [
        "deck http://h/d",
        "bind one go /hidden",
        "label Hidden",
        "bind last prev",
        "label Last",
        "card labels",
        "body $(t) C",
        "bind none noop",
        "label Noop",
        "bind broken prev",
        "label B$",
        "bind one go /one",
        "label One",
        "bind empty refresh",
        "label",
        "bind filled prev",
        "label t $t",
        "bind long prev",
        "label A long one",
        "card broken",
        "body t $",
        "card empty",
        "body $(none)",
    ];
    let mut writer = Writer::new(heap);
    for line in &lines {
        writer.line(line)?;
    }
    writer.file(heap)
}

/// The pages of a card in every room below the most.
fn pages<S: Store, H: Shelf>(
    rt: &HostRuntime,
    store: &S,
    shelf: &H,
    card: &str,
    most: usize,
) -> anyhow::Result<()> {
    println!(rt; "{card}")?;
    let Ok(address) = Address::parse(card.as_bytes()) else {
        return Err(anyhow!("no lawful address"));
    };
    for room in 0..most {
        let mut buf = [b'.'; 64];
        if room <= buf.len() {
            show(rt, store, shelf, &address, &mut buf[0..room])?;
        }
    }
    Ok(())
}

fn run(rt: &HostRuntime) -> anyhow::Result<()> {
    let file = shelf_file(rt.alloc())?;
    let shelf = FileShelf::open(file.as_slice());
    let mut memory = [0u8; 128];
    let mut store = PackedRun::new(&mut memory);
    store.clear();
    let _ = store.set(b"t", b"-18");
    pages(rt, &store, &shelf, "http://h/d#labels", 34)?;
    pages(rt, &store, &shelf, "http://h/d#broken", 2)?;
    pages(rt, &store, &shelf, "http://h/d#empty", 14)
}

fn main(rt: HostRuntime) -> anyhow::Result<()> {
    run(&rt)
}
