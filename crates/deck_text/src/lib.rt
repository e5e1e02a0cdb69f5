//! Decks in a readable text form, and the shelf file that holds them.
//!
//! One item stands on each line: a word, and then the text that belongs to it.
//!
//! ```text
//! deck ADDRESS          a deck; what follows up to its first card is its template
//! card ID               a card, and `newcontext ID` one that begins afresh
//! body TEXT             the card's body; more lines are joined by a line feed
//! forward KIND ADDRESS  the task of entering forward, of the card or else of the template
//! backward KIND ADDRESS the task of entering backward
//! bind NAME KIND ADDRESS  a binding with its task
//! label TEXT            the label of the last binding
//! set NAME=VALUE        an assignment of the last task
//! ```
//!
//! A kind is noop, go, prev or refresh. Empty lines and lines that begin with `;` are passed over.
//! What is written here is not judged: a shelf that opens the file says what is wrong with it.
#![tactic(auto)]

use anyhow::anyhow;
use decks::{Kind, Run, Way};
use std::alloc::{AllocError, Global};
use tables::{AssignmentRecord, BindingRecord, CardRecord, DeckRecord, Ref, TaskRecord};

/// The number of a task that is not there.
const NONE: u16 = 65_535;

/// A pool and five tables that are being written.
#[derive(Drop)]
pub struct Writer {
    pool: Vec<u8>,
    decks: Vec<DeckRecord>,
    cards: Vec<CardRecord>,
    bindings: Vec<BindingRecord>,
    tasks: Vec<TaskRecord>,
    assignments: Vec<AssignmentRecord>,
}

/// A count as the two bytes of a file hold it.
fn short(n: usize) -> anyhow::Result<u16> {
    Ok(u16::try_from(n)?)
}

/// A run with one number more; the first one sets where it begins.
fn longer(run: Run, next: u16) -> anyhow::Result<Run> {
    let count = run
        .count
        .checked_add(1)
        .ok_or_else(|| anyhow!("more than 255 in a row"))?;
    let first = if run.count == 0 { next } else { run.first };
    Ok(Run { first, count })
}

/// The kind of a task by its name.
fn kind_of(name: &str) -> anyhow::Result<Kind> {
    match name {
        "noop" => Ok(Kind::Noop),
        "go" => Ok(Kind::Go),
        "prev" => Ok(Kind::Prev),
        "refresh" => Ok(Kind::Refresh),
        _ => Err(anyhow!("a task is noop, go, prev or refresh")),
    }
}

/// The first word of a text, and what follows the space after it.
fn cut(text: &str) -> (&str, &str) {
    text.split_once(' ').unwrap_or((text, ""))
}

/// Puts a text at the end of the pool.
fn add_text(pool: &mut Vec<u8>, text: &str) -> anyhow::Result<Ref> {
    let start = short(pool.len())?;
    let len = short(text.len())?;
    pool.extend_from_slice(text.as_bytes())?;
    Ok(Ref { start, len })
}

impl Writer {
    /// Nothing yet.
    pub fn new(heap: Global) -> Writer {
        Writer {
            pool: Vec::new(heap),
            decks: Vec::new(heap),
            cards: Vec::new(heap),
            bindings: Vec::new(heap),
            tasks: Vec::new(heap),
            assignments: Vec::new(heap),
        }
    }

    fn text(&mut self, text: &str) -> anyhow::Result<Ref> {
        add_text(&mut self.pool, text)
    }

    fn deck(&mut self, address: &str) -> anyhow::Result<()> {
        let address = self.text(address)?;
        let none = Run { first: 0, count: 0 };
        self.decks.push(DeckRecord {
            address,
            cards: none,
            forward: NONE,
            backward: NONE,
            bindings: none,
        })?;
        Ok(())
    }

    fn card(&mut self, id: &str, newcontext: bool) -> anyhow::Result<()> {
        let number = short(self.cards.len())?;
        let id = self.text(id)?;
        let body = self.text("")?;
        let Some(deck) = self.decks.last_mut() else {
            return Err(anyhow!("a card before any deck"));
        };
        deck.cards = longer(deck.cards, number)?;
        self.cards.push(CardRecord {
            id,
            mark: u8::from(newcontext),
            body,
            forward: NONE,
            backward: NONE,
            bindings: Run { first: 0, count: 0 },
        })?;
        Ok(())
    }

    fn body(&mut self, text: &str) -> anyhow::Result<()> {
        let Some(card) = self.cards.last_mut() else {
            return Err(anyhow!("a body before any card"));
        };
        if card.body.len > 0 {
            self.pool.push(b'\n')?;
        }
        let line = add_text(&mut self.pool, text)?;
        let end = line.start as usize + line.len as usize;
        let start = if card.body.len > 0 {
            card.body.start
        } else {
            line.start
        };
        card.body = Ref {
            start,
            len: short(end.saturating_sub(start as usize))?,
        };
        Ok(())
    }

    fn task(&mut self, text: &str) -> anyhow::Result<u16> {
        let number = short(self.tasks.len())?;
        let (kind, address) = cut(text);
        let kind = kind_of(kind)?;
        let address = self.text(address)?;
        self.tasks.push(TaskRecord {
            kind: kind as u8,
            address,
            assignments: Run { first: 0, count: 0 },
        })?;
        Ok(number)
    }

    /// Whether the last deck has a card: then what follows is the card's, else the template's.
    fn in_card(&self) -> bool {
        self.decks.last().is_some_and(|deck| deck.cards.count > 0)
    }

    fn enter(&mut self, way: Way, text: &str) -> anyhow::Result<()> {
        let number = self.task(text)?;
        if self.in_card() {
            if let Some(card) = self.cards.last_mut() {
                match way {
                    Way::Forward => card.forward = number,
                    Way::Backward => card.backward = number,
                }
            }
        } else if let Some(deck) = self.decks.last_mut() {
            match way {
                Way::Forward => deck.forward = number,
                Way::Backward => deck.backward = number,
            }
        }
        Ok(())
    }

    fn bind(&mut self, text: &str) -> anyhow::Result<()> {
        let number = short(self.bindings.len())?;
        let (name, rest) = cut(text);
        let name = self.text(name)?;
        let task = self.task(rest)?;
        let label = self.text("")?;
        self.bindings.push(BindingRecord { name, label, task })?;
        if self.in_card() {
            if let Some(card) = self.cards.last_mut() {
                card.bindings = longer(card.bindings, number)?;
            }
        } else if let Some(deck) = self.decks.last_mut() {
            deck.bindings = longer(deck.bindings, number)?;
        }
        Ok(())
    }

    fn label(&mut self, text: &str) -> anyhow::Result<()> {
        let label = self.text(text)?;
        let Some(binding) = self.bindings.last_mut() else {
            return Err(anyhow!("a label before any binding"));
        };
        binding.label = label;
        Ok(())
    }

    fn assign(&mut self, text: &str) -> anyhow::Result<()> {
        let number = short(self.assignments.len())?;
        let Some((name, value)) = text.split_once('=') else {
            return Err(anyhow!("an assignment without ="));
        };
        let name = self.text(name)?;
        let value = self.text(value)?;
        let Some(task) = self.tasks.last_mut() else {
            return Err(anyhow!("an assignment before any task"));
        };
        task.assignments = longer(task.assignments, number)?;
        self.assignments.push(AssignmentRecord { name, value })?;
        Ok(())
    }

    /// Takes one line of the text form.
    pub fn line(&mut self, line: &str) -> anyhow::Result<()> {
        let (word, text) = cut(line.trim());
        match word {
            "" | ";" => Ok(()),
            "deck" => self.deck(text),
            "card" => self.card(text, false),
            "newcontext" => self.card(text, true),
            "body" => self.body(text),
            "forward" => self.enter(Way::Forward, text),
            "backward" => self.enter(Way::Backward, text),
            "bind" => self.bind(text),
            "label" => self.label(text),
            "set" => self.assign(text),
            _ => Err(anyhow!("an unknown word")),
        }
    }

    /// The shelf file: the pool, the five tables and the trailer.
    pub fn file(&self, heap: Global) -> anyhow::Result<Vec<u8>> {
        let mut out = self.pool.as_slice().to_vec(heap)?;
        for r in &self.decks {
            put_ref(&mut out, r.address)?;
            put_run(&mut out, r.cards)?;
            put_number(&mut out, r.forward)?;
            put_number(&mut out, r.backward)?;
            put_run(&mut out, r.bindings)?;
        }
        for r in &self.cards {
            put_card(&mut out, *r)?;
        }
        for r in &self.bindings {
            put_ref(&mut out, r.name)?;
            put_ref(&mut out, r.label)?;
            put_number(&mut out, r.task)?;
        }
        for r in &self.tasks {
            out.push(r.kind)?;
            put_ref(&mut out, r.address)?;
            put_run(&mut out, r.assignments)?;
        }
        for r in &self.assignments {
            put_ref(&mut out, r.name)?;
            put_ref(&mut out, r.value)?;
        }
        self.trailer(&mut out)?;
        Ok(out)
    }

    fn trailer(&self, out: &mut Vec<u8>) -> anyhow::Result<()> {
        let counts = [
            self.pool.len(),
            self.decks.len(),
            self.cards.len(),
            self.bindings.len(),
            self.tasks.len(),
            self.assignments.len(),
        ];
        for count in counts {
            put_number(out, short(count)?)?;
        }
        out.push(1)?;
        out.push(0x57)?;
        Ok(())
    }
}

fn put_number(out: &mut Vec<u8>, n: u16) -> Result<(), AllocError> {
    out.extend_from_slice(&n.to_be_bytes())
}

fn put_ref(out: &mut Vec<u8>, r: Ref) -> Result<(), AllocError> {
    put_number(out, r.start)?;
    put_number(out, r.len)
}

fn put_run(out: &mut Vec<u8>, r: Run) -> Result<(), AllocError> {
    put_number(out, r.first)?;
    out.push(r.count)?;
    Ok(())
}

fn put_card(out: &mut Vec<u8>, r: CardRecord) -> Result<(), AllocError> {
    put_ref(out, r.id)?;
    out.push(r.mark)?;
    put_ref(out, r.body)?;
    put_number(out, r.forward)?;
    put_number(out, r.backward)?;
    put_run(out, r.bindings)
}
