//! Lines that change the heap, though they are none of the grammar of sessions.
ghost use Rattle.std.specs.Prelude.{◌≡◌, ◌∷◌, [], MatchResult, option_map};
ghost use Rattle.session_grammar.specs.Grammar.{words_of_line};
ghost use Rattle.question_grammar.specs.declared.order.Order.TheVariants.{Act, ForwardTo};
ghost use Rattle.question_grammar.specs.Bookmarks.{no_bookmarks};
ghost use Rattle.question_grammar.specs.EventNames.{event_of_words};
ghost use Rattle.question_grammar.specs.Orders.{MayTakeMemory, order_in, order_of_two, order_of_words, to_place, way_back, way_on};

use crate::bookmarks::Bookmarks;
use crate::event_name::event_in;
use crate::question::place_of_word;
use heap_step::Event;
use heap_world::World;
use session_grammar::command::at_end;
use session_grammar::number::number_of;
use session_grammar::words::{Words, is_word};
use std::alloc::{AllocError, Global};

/// What such a line asks to be done.
#[derive(Drop)]
pub enum Order {
    /// The steps of a whole cycle: `collect`.
    Collect,
    /// A rewind to the state at a place: `rewind @P`.
    RewindTo(u64),
    /// To take this many of the undone steps again: `forward N`.
    Forward(u64),
    /// To take as many of the undone steps again as lead on to a place: `forward @P`.
    ForwardTo(u64),
    /// An event whose line names a class or a field, such as `new M R NAME`.
    Act(Event),
}

/// Returns what a line asks to be done, or None if it is none of these lines. Names in it are those of the session's places, and of
/// this state's classes and fields. Fails if an allocation for a class fails.
pub fn order_in(
    alloc: Global,
    bookmarks: &Bookmarks,
    world: &World,
    line: &[u8],
) -> Result<Option<Order>, AllocError>
    ensures { MatchResult result (λ order. order ≡ order_in bookmarks.now world.now line.now)
        (λ _. MayTakeMemory (order_in bookmarks.now world.now line.now)) }
{
    match order_of_words(bookmarks, Words::new(line)) {
        Some(order) => Ok(Some(order)),
        None => act_in(alloc, world, line),
    }
}

// Returns what the words ask to be done without a name.
#[tactic(auto, unfolding(crate::specs::Orders::order_of_words))]
fn order_of_words(bookmarks: &Bookmarks, mut words: Words) -> Option<Order>
    ensures { result ≡ order_of_words bookmarks.now (words_of_line words.entry) }
{
    let keyword = words.next_word()?;
    let Some(word) = words.next_word() else {
        return collection_by(keyword);
    };
    at_end(order_of_two(bookmarks, keyword, word)?, words)
}

// Returns what a word asks to be done that stands alone.
#[tactic(auto, unfolding(crate::specs::Orders::order_of_words))]
fn collection_by(keyword: &[u8]) -> Option<Order>
    ensures { result ≡ order_of_words no_bookmarks (keyword.now ∷ []) }
{
    if is_word(keyword, b"collect") {
        Some(Order::Collect)
    } else {
        None
    }
}

// Returns what a keyword and the word behind it ask to be done.
#[tactic(auto, unfolding(crate::specs::Orders::order_of_two))]
fn order_of_two(bookmarks: &Bookmarks, keyword: &[u8], word: &[u8]) -> Option<Order>
    ensures { result ≡ order_of_two bookmarks.now keyword.now word.now }
{
    if is_word(keyword, b"rewind") {
        way_back(bookmarks, word)
    } else if is_word(keyword, b"forward") {
        way_on(bookmarks, word)
    } else {
        None
    }
}

// Returns the rewind to the place that a word names.
fn way_back(bookmarks: &Bookmarks, word: &[u8]) -> Option<Order>
    ensures { result ≡ way_back bookmarks.now word.now }
{
    let place = place_of_word(bookmarks, word)??;
    Some(Order::RewindTo(place))
}

// Returns the way forward that a word counts, or that leads to the place that it names.
fn way_on(bookmarks: &Bookmarks, word: &[u8]) -> Option<Order>
    ensures { result ≡ way_on bookmarks.now word.now }
{
    match number_of(word) {
        Some(count) => Some(Order::Forward(count)),
        None => way_on_to(bookmarks, word),
    }
}

// Returns the way forward to the place that a word names.
fn way_on_to(bookmarks: &Bookmarks, word: &[u8]) -> Option<Order>
    ensures { result ≡ to_place bookmarks.now ForwardTo word.now }
{
    let place = place_of_word(bookmarks, word)??;
    Some(Order::ForwardTo(place))
}

// Returns the event that a line asks for by a name, as an order. Fails if an allocation for a class fails.
fn act_in(alloc: Global, world: &World, line: &[u8]) -> Result<Option<Order>, AllocError>
    ensures { MatchResult result
        (λ order. order ≡ option_map Act (event_of_words world.now (words_of_line line.now)))
        (λ _. MayTakeMemory (option_map Act (event_of_words world.now (words_of_line line.now)))) }
{
    match event_in(alloc, world, line)? {
        Some(event) => Ok(Some(Order::Act(event))),
        None => Ok(None),
    }
}
