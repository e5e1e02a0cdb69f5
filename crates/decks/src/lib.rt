//! Decks as a browser asks for them: what a shelf hands out, the questions that every shelf
//! answers, and the searches that are written once over any shelf.
//!
//! A shelf means a list of decks. Its cards, bindings, tasks and assignments have numbers, and a
//! view of one part names the parts below it by their numbers. Nothing is copied: a text is handed
//! out as a part of the shelf's memory, with its place there.
#![tactic(auto)]

ghost use Rattle.std.specs.Prelude.{◌≡◌, ℕ, ◌+◌, ◌-◌, ◌<◌, ◌≤◌, List, ◌++◌, map, length, take, IfSome, Some, None, OnSome};
ghost use Rattle.std.specs.Iterator.{at_most};
ghost use Rattle.std.specs.List.{range_with_len, slice_get};
ghost use Rattle.decks.specs.Model.{Deck, deck_at, with_id, named, head, card_at, enter_of, offers, has, pressed};
ghost use Rattle.decks.specs.ActiveLaw.{ActiveReads};
ghost use Rattle.decks.specs.Allowances.{Allowed, DeckAllowed};
ghost use Rattle.decks.specs.Views.{Numbered, Placed, Lies, opt, run, number_in, deck_of, card_of, binding_of, task_of, assignment_of};
ghost use Rattle.decks.specs.Handed.{DeckLies, CardLies, BindingLies, AssignmentLies, number_among, DeckPlaced, CardBetween, CardPlaced, BindingPlaced, AssignmentPlaced};
ghost use Rattle.decks.specs.Walk.{decks_from, DeckSteps, cards_from, CardSteps, offers_from, offered, OfferSteps, ActiveSteps};

mod words;

/// What a task does: nothing, set out for its address, set out for the address before, or set
/// variables and stand.
#[derive(Clone, Copy, PartialEq, Eq, Debug)]
pub enum Kind {
    Noop,
    Go,
    Prev,
    Refresh,
}

/// The way to a card: forward by a go, backward by a prev.
#[derive(Clone, Copy, PartialEq, Eq, Debug)]
pub enum Way {
    Forward,
    Backward,
}

/// A text: a part of the shelf's memory, with its place there.
#[derive(Clone, Copy)]
pub struct Part<'a> {
    pub bytes: &'a [u8],
    pub place: usize,
}

/// Numbers in a row.
#[derive(Clone, Copy)]
pub struct Run {
    pub first: u16,
    pub count: u8,
}

/// A deck: its address, its cards, and the tasks and bindings of its template.
#[derive(Clone, Copy)]
pub struct DeckView<'a> {
    pub address: Part<'a>,
    pub cards: Run,
    pub forward: Option<u16>,
    pub backward: Option<u16>,
    pub bindings: Run,
}

/// A card, with the numbers of its own tasks and bindings.
#[derive(Clone, Copy)]
pub struct CardView<'a> {
    pub id: Part<'a>,
    pub newcontext: bool,
    pub body: Part<'a>,
    pub forward: Option<u16>,
    pub backward: Option<u16>,
    pub bindings: Run,
}

/// A binding, with the number of its task.
#[derive(Clone, Copy)]
pub struct BindingView<'a> {
    pub name: Part<'a>,
    pub label: Part<'a>,
    pub task: u16,
}

/// A task, with the numbers of its assignments.
#[derive(Clone, Copy)]
pub struct TaskView<'a> {
    pub kind: Kind,
    pub address: Part<'a>,
    pub assignments: Run,
}

/// An assignment of a value text to a name text.
#[derive(Clone, Copy)]
pub struct AssignmentView<'a> {
    pub name: Part<'a>,
    pub value: Part<'a>,
}

/// A list of decks, with numbers for their parts. Every number means something, so no question has
/// to be refused, and a question changes nothing.
pub trait Shelf {
    ghost decks: { Self → List Deck };

    ghost parts: { Self → Numbered };

    ghost memory: { Self → List ℕ };

    ghost places: { Self → Placed };

    ghost lawful: { (s : Self) → Allowed (decks s) };

    /// The deck at place `k` of the list, if there.
    fn deck(&self, k: usize) -> Option<DeckView<'_>>
        ensures means { opt (deck_of (parts self.now)) result ≡ slice_get (decks self.now) k }
        ensures placed { IfSome result (λ v. v.address.place ≡ (places self.now).decks k) }
        ensures lies { IfSome result (λ v. Lies (memory self.now) v.address) };

    /// The card of a number.
    fn card(&self, c: usize) -> CardView<'_>
        ensures means { card_of (parts self.now) result ≡ (parts self.now).cards c }
        ensures placed { (result.id.place, result.body.place) ≡ (places self.now).cards c }
        ensures lies { Lies (memory self.now) result.id × Lies (memory self.now) result.body };

    /// The binding of a number.
    fn binding(&self, b: usize) -> BindingView<'_>
        ensures means { binding_of (parts self.now) result ≡ (parts self.now).bindings b }
        ensures placed { (result.name.place, result.label.place) ≡ (places self.now).bindings b }
        ensures lies { Lies (memory self.now) result.name × Lies (memory self.now) result.label };

    /// The task of a number.
    fn task(&self, t: u16) -> TaskView<'_>
        ensures means { task_of (parts self.now) result ≡ (parts self.now).tasks t }
        ensures placed { result.address.place ≡ (places self.now).tasks t }
        ensures lies { Lies (memory self.now) result.address };

    /// The assignment of a number.
    fn assignment(&self, a: usize) -> AssignmentView<'_>
        ensures means { assignment_of result ≡ (parts self.now).assignments a }
        ensures placed { (result.name.place, result.value.place) ≡ (places self.now).assignments a }
        ensures lies { Lies (memory self.now) result.name × Lies (memory self.now) result.value };
}

/// The decks of a shelf from a place on, in their order.
#[derive(Drop)]
pub struct Decks<'a, S> {
    pub shelf: &'a S,
    pub next: usize,
}

impl<'a, S> Decks<'a, S> {
    /// The decks of a shelf, from the first on.
    pub fn of(shelf: &'a S) -> Self
        ensures { result ≡ decks_from shelf.entry 0 }
    {
        Decks { shelf, next: 0 }
    }
}

impl<'a, S: Shelf> Iterator for Decks<'a, S> {
    type Item = DeckView<'a>;

    ghost next_gives = { λ s r t. DeckSteps (S.Shelf.decks s.shelf.now) (S.Shelf.parts s.shelf.now) (S.Shelf.places s.shelf.now) (S.Shelf.memory s.shelf.now) s r t };

    ghost remaining = { λ s. at_most (length (S.Shelf.decks s.shelf.now) - s.next) };

    fn next(&mut self) -> Option<DeckView<'a>> {
        let deck = self.shelf.deck(self.next)?;
        self.next += 1;
        Some(deck)
    }
}

/// The deck at an address, if the shelf has one; it keeps every allowance.
pub fn find_deck<'a, S: Shelf>(shelf: &'a S, address: &[u8]) -> Option<DeckView<'a>>
    ensures found { opt (deck_of (S.Shelf.parts shelf.now)) result ≡ deck_at (S.Shelf.decks shelf.now) address.now }
    ensures allowed { IfSome result (λ d. DeckAllowed (deck_of (S.Shelf.parts shelf.now) d)) }
    ensures lies { IfSome result (DeckLies (S.Shelf.memory shelf.now)) }
    ensures placed { IfSome result (DeckPlaced (S.Shelf.decks shelf.now) (S.Shelf.parts shelf.now) (S.Shelf.places shelf.now)) }
{
    Decks::of(shelf).find(|deck| deck.address.bytes == address)
}

impl Run {
    /// The number at place `k`, if there.
    fn number(self, k: usize) -> Option<usize>
        ensures value { result ≡ number_in self k }
        ensures within { OnSome result (k < self.count) }
        ensures few { OnSome result (k < 255) }
    {
        if k < self.count as usize {
            Some(self.first as usize + k)
        } else {
            None
        }
    }
}

/// The cards of a run, from a place on, in their order.
#[derive(Drop)]
pub struct Cards<'a, S> {
    pub shelf: &'a S,
    pub cards: Run,
    pub next: usize,
}

impl<'a, S> Cards<'a, S> {
    /// The cards of a deck, from the first on.
    pub fn of(shelf: &'a S, deck: &DeckView) -> Self
        ensures { result ≡ cards_from shelf.entry deck.now.cards 0 }
    {
        Cards {
            shelf,
            cards: deck.cards,
            next: 0,
        }
    }
}

impl<'a, S: Shelf> Iterator for Cards<'a, S> {
    type Item = CardView<'a>;

    ghost next_gives = { λ s r t. CardSteps (S.Shelf.parts s.shelf.now) (S.Shelf.places s.shelf.now) (S.Shelf.memory s.shelf.now) s r t };

    ghost remaining = { λ s. at_most (s.cards.count - s.next) };

    fn next(&mut self) -> Option<CardView<'a>> {
        let number = self.cards.number(self.next)?;
        self.next += 1;
        Some(self.shelf.card(number))
    }
}

/// The first card of a deck with an id.
fn card_with_id<'a, S: Shelf>(shelf: &'a S, deck: &DeckView, id: &[u8]) -> Option<CardView<'a>>
    ensures found { opt (card_of (S.Shelf.parts shelf.now)) result ≡ with_id (run (S.Shelf.parts shelf.now).cards deck.now.cards) id.now }
    ensures lies { IfSome result (CardLies (S.Shelf.memory shelf.now)) }
    ensures placed { IfSome result (CardPlaced (S.Shelf.parts shelf.now) (S.Shelf.places shelf.now) deck.now.cards) }
{
    Cards::of(shelf, deck).find(|card| card.id.bytes == id)
}

/// The first card that a fragment of one byte or more names.
fn card_named<'a, S: Shelf>(shelf: &'a S, deck: &DeckView, fragment: &[u8]) -> Option<CardView<'a>>
    ensures found { opt (card_of (S.Shelf.parts shelf.now)) result ≡ named (run (S.Shelf.parts shelf.now).cards deck.now.cards) fragment.now }
    ensures lies { IfSome result (CardLies (S.Shelf.memory shelf.now)) }
    ensures placed { IfSome result (CardPlaced (S.Shelf.parts shelf.now) (S.Shelf.places shelf.now) deck.now.cards) }
{
    if fragment.is_empty() {
        return None;
    }
    card_with_id(shelf, deck, fragment)
}

/// The first card of a deck, if it has one.
fn first_card<'a, S: Shelf>(shelf: &'a S, deck: &DeckView) -> Option<CardView<'a>>
    ensures found { opt (card_of (S.Shelf.parts shelf.now)) result ≡ head (run (S.Shelf.parts shelf.now).cards deck.now.cards) }
    ensures lies { IfSome result (CardLies (S.Shelf.memory shelf.now)) }
    ensures placed { IfSome result (CardPlaced (S.Shelf.parts shelf.now) (S.Shelf.places shelf.now) deck.now.cards) }
{
    Cards::of(shelf, deck).next()
}

/// The card that a fragment means: the first one that it names, else the deck's first card.
pub fn find_card<'a, S: Shelf>(
    shelf: &'a S,
    deck: &DeckView,
    fragment: &[u8],
) -> Option<CardView<'a>>
    ensures found { opt (card_of (S.Shelf.parts shelf.now)) result ≡ card_at (run (S.Shelf.parts shelf.now).cards deck.now.cards) fragment.now }
    ensures lies { IfSome result (CardLies (S.Shelf.memory shelf.now)) }
    ensures placed { IfSome result (CardPlaced (S.Shelf.parts shelf.now) (S.Shelf.places shelf.now) deck.now.cards) }
{
    // `or_else` was tried: the check doesn't see through its closure what `first_card` ensures.
    if let Some(card) = card_named(shelf, deck, fragment) {
        return Some(card);
    }
    first_card(shelf, deck)
}

/// The number of the enter task: the card's own, else the template's, else none.
pub fn enter_task(deck: &DeckView, card: &CardView, way: Way) -> Option<u16>
    ensures { (n : Numbered) → opt n.tasks result ≡ enter_of (deck_of n deck.now) (card_of n card.now) way }
{
    let (own, template) = match way {
        Way::Forward => (card.forward, deck.forward),
        Way::Backward => (card.backward, deck.backward),
    };
    if let Some(t) = own {
        Some(t)
    } else if let Some(t) = template {
        Some(t)
    } else {
        None
    }
}

/// The bindings that a card of a deck offers, from a place on: the card's own, then the template's.
#[derive(Drop)]
pub struct Offers<'a, S> {
    pub shelf: &'a S,
    pub own: Run,
    pub shared: Run,
    pub next: usize,
}

impl<'a, S> Offers<'a, S> {
    /// The bindings that a card of a deck offers, from the first on.
    pub fn of(shelf: &'a S, deck: &DeckView, card: &CardView) -> Self
        ensures { result ≡ offers_from shelf.entry card.now.bindings deck.now.bindings 0 }
    {
        Offers {
            shelf,
            own: card.bindings,
            shared: deck.bindings,
            next: 0,
        }
    }
}

impl<'a, S: Shelf> Offers<'a, S> {
    /// The number of the binding at the place of the walk, if there.
    fn number(&self) -> Option<usize>
        ensures among { result ≡ number_among self.now.own self.now.shared self.now.next }
        ensures within { OnSome result (self.now.next < self.now.own.count + self.now.shared.count) }
        ensures few { OnSome result (self.now.next < 510) }
    {
        let own = self.own.count as usize;
        if self.next < own {
            self.own.number(self.next)
        } else {
            self.shared.number(self.next - own)
        }
    }

    /// Whether one of the first `k` bindings has the name.
    fn has_before(&self, k: usize, name: &[u8]) -> bool
        ensures { result ≡ has (take k (offered (S.Shelf.parts self.now.shelf.now) self.now)) name.now }
    {
        Offers { next: 0, ..*self }
            .take(k)
            .any(|binding| binding.name.bytes == name)
    }
}

impl<'a, S: Shelf> Iterator for Offers<'a, S> {
    type Item = BindingView<'a>;

    ghost next_gives = { λ s r t. OfferSteps (S.Shelf.parts s.shelf.now) (S.Shelf.places s.shelf.now) (S.Shelf.memory s.shelf.now) s r t };

    ghost remaining = { λ s. at_most (s.own.count + s.shared.count - s.next) };

    fn next(&mut self) -> Option<BindingView<'a>> {
        let number = self.number()?;
        self.next += 1;
        Some(self.shelf.binding(number))
    }
}

/// The active bindings of a card of a deck, from a place on: of the offered ones of equal names the
/// first.
#[derive(Drop)]
pub struct Active<'a, S> {
    pub offers: Offers<'a, S>,
}

impl<'a, S> Active<'a, S> {
    /// The active bindings of a card of a deck, from the first on.
    pub fn of(shelf: &'a S, deck: &DeckView, card: &CardView) -> Self
        ensures first { result.offers ≡ offers_from shelf.entry card.now.bindings deck.now.bindings 0 }
        ensures reads { ActiveReads }
    {
        Active {
            offers: Offers::of(shelf, deck, card),
        }
    }
}

impl<'a, S: Shelf> Iterator for Active<'a, S> {
    type Item = BindingView<'a>;

    ghost next_gives = { λ s r t. ActiveSteps (S.Shelf.parts s.offers.shelf.now) (S.Shelf.places s.offers.shelf.now) (S.Shelf.memory s.offers.shelf.now) s.offers r t.offers };

    ghost remaining = { λ s. at_most (s.offers.own.count + s.offers.shared.count - s.offers.next) };

    fn next(&mut self) -> Option<BindingView<'a>> {
        loop {
            let place = self.offers.next;
            let binding = self.offers.next()?;
            if !self.offers.has_before(place, binding.name.bytes) {
                return Some(binding);
            }
        }
    }
}

/// The active binding of a name, if there.
pub fn find_binding<'a, S: Shelf>(
    shelf: &'a S,
    deck: &DeckView,
    card: &CardView,
    name: &[u8],
) -> Option<BindingView<'a>>
    ensures found { opt (binding_of (S.Shelf.parts shelf.now)) result ≡ pressed (deck_of (S.Shelf.parts shelf.now) deck.now) (card_of (S.Shelf.parts shelf.now) card.now) name.now }
    ensures lies { IfSome result (BindingLies (S.Shelf.memory shelf.now)) }
    ensures placed { IfSome result (BindingPlaced (S.Shelf.parts shelf.now) (S.Shelf.places shelf.now) deck.now card.now) }
{
    Offers::of(shelf, deck, card).find(|binding| binding.name.bytes == name)
}

/// The assignment at place `k` of a task, if there.
pub fn assignment_of<'a, S: Shelf>(
    shelf: &'a S,
    task: &TaskView,
    k: usize,
) -> Option<AssignmentView<'a>>
    ensures found { opt assignment_of result ≡ slice_get (task_of (S.Shelf.parts shelf.now) task.now).assignments k }
    ensures lies { IfSome result (AssignmentLies (S.Shelf.memory shelf.now)) }
    ensures placed { IfSome result (AssignmentPlaced (S.Shelf.places shelf.now) task.now.assignments k) }
{
    let number = task.assignments.number(k)?;
    Some(shelf.assignment(number))
}
