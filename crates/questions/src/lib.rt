//! A walker's questions, put to any shelf: which deck an address finds, which card its fragment
//! means, the tasks of entering that card, and the active binding of a name.
#![tactic(auto)]

ghost use Rattle.std.specs.Prelude.{◌≡◌, IfSome, Some};
ghost use Rattle.decks.specs.Views.{opt, deck_of, card_of, task_of};
ghost use Rattle.decks.specs.Handed.{DeckLies, CardLies, TaskLies, DeckPlaced, CardPlaced, TaskPlaced};
ghost use Rattle.questions.specs.Answers.{answer_by, meant_by, at_card};
ghost use Rattle.questions.specs.Handed.{AnswerLies, AnswerPlaced};

use decks::{
    BindingView, CardView, DeckView, Shelf, TaskView, Way, enter_task, find_binding, find_card,
    find_deck,
};

/// What a shelf answers, each part if there.
#[derive(Clone, Copy)]
pub struct Answer<'a> {
    pub deck: Option<DeckView<'a>>,
    pub card: Option<CardView<'a>>,
    pub forward: Option<TaskView<'a>>,
    pub backward: Option<TaskView<'a>>,
    pub binding: Option<BindingView<'a>>,
}

/// The task of a number, where there is a number.
fn task_if<S: Shelf>(shelf: &S, number: Option<u16>) -> Option<TaskView<'_>>
    ensures found { opt (task_of (S.Shelf.parts shelf.now)) result ≡ opt (S.Shelf.parts shelf.now).tasks number }
    ensures lies { IfSome result (TaskLies (S.Shelf.memory shelf.now)) }
    ensures placed { TaskPlaced (S.Shelf.places shelf.now) number result }
{
    number.map(|t| shelf.task(t))
}

/// The answer at a card of a deck.
fn ask_card<'a, S: Shelf>(
    shelf: &'a S,
    deck: DeckView<'a>,
    card: CardView<'a>,
    name: &[u8],
) -> Answer<'a>
    ensures found { meant_by (S.Shelf.parts shelf.now) result ≡ at_card (deck_of (S.Shelf.parts shelf.now) deck.entry) name.now (Some (card_of (S.Shelf.parts shelf.now) card.entry)) }
    ensures lies { DeckLies (S.Shelf.memory shelf.now) deck.entry → CardLies (S.Shelf.memory shelf.now) card.entry → AnswerLies (S.Shelf.memory shelf.now) result }
    ensures placed { DeckPlaced (S.Shelf.decks shelf.now) (S.Shelf.parts shelf.now) (S.Shelf.places shelf.now) deck.entry → CardPlaced (S.Shelf.parts shelf.now) (S.Shelf.places shelf.now) deck.entry.cards card.entry → AnswerPlaced (S.Shelf.decks shelf.now) (S.Shelf.parts shelf.now) (S.Shelf.places shelf.now) result }
{
    Answer {
        deck: Some(deck),
        card: Some(card),
        forward: task_if(shelf, enter_task(&deck, &card, Way::Forward)),
        backward: task_if(shelf, enter_task(&deck, &card, Way::Backward)),
        binding: find_binding(shelf, &deck, &card, name),
    }
}

/// A shelf's answer to an address, a fragment and a binding's name. What it means depends on the
/// shelf's decks alone.
pub fn ask<'a, S: Shelf>(shelf: &'a S, address: &[u8], fragment: &[u8], name: &[u8]) -> Answer<'a>
    ensures found { meant_by (S.Shelf.parts shelf.now) result ≡ answer_by (S.Shelf.decks shelf.now) address.now fragment.now name.now }
    ensures lies { AnswerLies (S.Shelf.memory shelf.now) result }
    ensures placed { AnswerPlaced (S.Shelf.decks shelf.now) (S.Shelf.parts shelf.now) (S.Shelf.places shelf.now) result }
{
    let deck = find_deck(shelf, address);
    let card = deck.and_then(|deck| find_card(shelf, &deck, fragment));
    match (deck, card) {
        (Some(deck), Some(card)) => ask_card(shelf, deck, card, name),
        _ => Answer {
            deck,
            card: None,
            forward: None,
            backward: None,
            binding: None,
        },
    }
}

/// Two shelves' answers to one question. Shelves that mean the same decks answer alike, places
/// aside, whatever memory they lie in.
pub fn ask_both<'a, S: Shelf, T: Shelf>(
    one: &'a S,
    other: &'a T,
    address: &[u8],
    fragment: &[u8],
    name: &[u8],
) -> (Answer<'a>, Answer<'a>)
    ensures first { meant_by (S.Shelf.parts one.now) result.0 ≡ answer_by (S.Shelf.decks one.now) address.now fragment.now name.now }
    ensures second { meant_by (T.Shelf.parts other.now) result.1 ≡ answer_by (T.Shelf.decks other.now) address.now fragment.now name.now }
    ensures alike { S.Shelf.decks one.now ≡ T.Shelf.decks other.now → meant_by (S.Shelf.parts one.now) result.0 ≡ meant_by (T.Shelf.parts other.now) result.1 }
    ensures lies { AnswerLies (S.Shelf.memory one.now) result.0 × AnswerLies (T.Shelf.memory other.now) result.1 }
    ensures placed { AnswerPlaced (S.Shelf.decks one.now) (S.Shelf.parts one.now) (S.Shelf.places one.now) result.0 × AnswerPlaced (T.Shelf.decks other.now) (T.Shelf.parts other.now) (T.Shelf.places other.now) result.1 }
{
    (
        ask(one, address, fragment, name),
        ask(other, address, fragment, name),
    )
}
