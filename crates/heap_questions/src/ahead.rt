//! Objects are read ahead of a search, so that the processor reads many of them at a time.
ghost use Rattle.std.specs.Prelude.{◌<◌, length};
ghost use Rattle.heap_questions.specs.Search.{AreNodes};

use crate::nodes::NodeList;
use crate::search::{Entry, entry_at};
use hprof_text::View;

// The number of objects that are read ahead at a time.
const READ_AHEAD: usize = 16;

// Reads the objects of the next entries of a queue, from the one at `head` on, if `head` is a multiple of as many. The nodes must
// be the view's. In a large heap each read waits for the memory: here none depends on another, so that the processor waits for
// all at the same time. Returns a sum of words that were read, which tells nothing: a search keeps it only because the compiler
// would else leave out the reads.
pub(crate) fn look_ahead<V: View>(view: &V, nodes: &NodeList, queue: &[Entry], head: usize) -> u64
    requires { AreNodes (V.image view.now) (V.places view.now) nodes.now }
{
    if head % READ_AHEAD == 0 {
        read_ahead(view, nodes, queue, head)
    } else {
        0
    }
}

// Reads the objects of the next entries of a queue, from the one at `head` on. The nodes must be the view's. Returns the sum of
// their first words.
fn read_ahead<V: View>(view: &V, nodes: &NodeList, queue: &[Entry], head: usize) -> u64
    requires { AreNodes (V.image view.now) (V.places view.now) nodes.now }
{
    let mut sum = 0u64;
    for index in head..queue.len().min(head.saturating_add(READ_AHEAD)) {
        let node = entry_at(queue, index).node as usize;
        if node < nodes.len() {
            sum = sum.wrapping_add(first_word(view, nodes, node));
        }
    }
    sum
}

// Returns the first word of an object, or 0 if it has none. The nodes must be the view's.
fn first_word<V: View>(view: &V, nodes: &NodeList, node: usize) -> u64
    requires nodes { AreNodes (V.image view.now) (V.places view.now) nodes.now }
    requires within { node < length nodes.now }
{
    match view.words(nodes.place(node)).first() {
        Some(word) => *word,
        None => 0,
    }
}
