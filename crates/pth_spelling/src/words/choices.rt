//! Words of a list.

ghost use Rattle.std.specs.Prelude.{◌≡◌};
ghost use Rattle.pth_spelling.specs.WordMeanings.{goals_of, which_of, relation_of, field_of, thread_state_of, mode_of, direction_of, query_of};

use crate::direction::Direction;
use crate::keyword::QueryWord;
use crate::named::named;
use pth_base::attr::AttrField;
use pth_base::thread::ThreadState;
use pth_operand::relation::Relation;

static GOALS: [(&str, u8); 7] = [
    ("r", 1),
    ("w", 2),
    ("rw", 3),
    ("x", 4),
    ("rx", 5),
    ("wx", 6),
    ("rwx", 7),
];

/// What a descriptor is waited for: the sum of 1 for `r`, 2 for `w` and 4 for `x`.
#[tactic(auto, unfolding(crate::specs::WordMeanings::goals_of))]
pub fn goals(word: &[u8]) -> Option<u8>
    ensures { result ≡ goals_of word.now }
{
    named(&GOALS, word)
}

static WHICH: [(&str, bool); 2] = [("this", false), ("all", true)];

/// Whether all events of a ring are meant.
#[tactic(auto, unfolding(crate::specs::WordMeanings::which_of))]
pub fn which(word: &[u8]) -> Option<bool>
    ensures { result ≡ which_of word.now }
{
    named(&WHICH, word)
}

static RELATIONS: [(&str, Relation); 6] = [
    ("eq", Relation::Eq),
    ("ne", Relation::Ne),
    ("lt", Relation::Lt),
    ("le", Relation::Le),
    ("gt", Relation::Gt),
    ("ge", Relation::Ge),
];

/// A relation between two numbers.
#[tactic(auto, unfolding(crate::specs::WordMeanings::relation_of))]
pub fn relation(word: &[u8]) -> Option<Relation>
    ensures { result ≡ relation_of word.now }
{
    named(&RELATIONS, word)
}

static FIELDS: [(&str, AttrField); 7] = [
    ("prio", AttrField::Prio),
    ("name", AttrField::Name),
    ("joinable", AttrField::Joinable),
    ("cancel", AttrField::Cancel),
    ("dispatches", AttrField::Dispatches),
    ("state", AttrField::State),
    ("bound", AttrField::Bound),
];

/// A field of an attribute object.
#[tactic(auto, unfolding(crate::specs::WordMeanings::field_of))]
pub fn field(word: &[u8]) -> Option<AttrField>
    ensures { result ≡ field_of word.now }
{
    named(&FIELDS, word)
}

static STATES: [(&str, ThreadState); 4] = [
    ("new", ThreadState::New),
    ("ready", ThreadState::Ready),
    ("waiting", ThreadState::Waiting),
    ("dead", ThreadState::Dead),
];

/// A thread's state that an event may wait for.
#[tactic(auto, unfolding(crate::specs::WordMeanings::thread_state_of))]
pub fn state(word: &[u8]) -> Option<ThreadState>
    ensures { result ≡ thread_state_of word.now }
{
    named(&STATES, word)
}

static MODES: [(&str, bool); 2] = [("rd", false), ("rw", true)];

/// Whether a lock is taken for writing.
#[tactic(auto, unfolding(crate::specs::WordMeanings::mode_of))]
pub fn mode(word: &[u8]) -> Option<bool>
    ensures { result ≡ mode_of word.now }
{
    named(&MODES, word)
}

static DIRECTIONS: [(&str, Direction); 4] = [
    (
        "next",
        Direction {
            forward: true,
            until_occurred: false,
        },
    ),
    (
        "prev",
        Direction {
            forward: false,
            until_occurred: false,
        },
    ),
    (
        "next_occurred",
        Direction {
            forward: true,
            until_occurred: true,
        },
    ),
    (
        "prev_occurred",
        Direction {
            forward: false,
            until_occurred: true,
        },
    ),
];

/// The direction of a walk round a ring.
#[tactic(auto, unfolding(crate::specs::WordMeanings::direction_of))]
pub fn direction(word: &[u8]) -> Option<Direction>
    ensures { result ≡ direction_of word.now }
{
    named(&DIRECTIONS, word)
}

static QUERIES: [(&str, QueryWord); 10] = [
    ("threads", QueryWord::Threads),
    ("new", QueryWord::New),
    ("ready", QueryWord::Ready),
    ("running", QueryWord::Running),
    ("waiting", QueryWord::Waiting),
    ("suspended", QueryWord::Suspended),
    ("dead", QueryWord::Dead),
    ("favournew", QueryWord::Favournew),
    ("prio", QueryWord::Prio),
    ("name", QueryWord::Name),
];

/// What the scheduler is asked.
#[tactic(auto, unfolding(crate::specs::WordMeanings::query_of))]
pub fn query(word: &[u8]) -> Option<QueryWord>
    ensures { result ≡ query_of word.now }
{
    named(&QUERIES, word)
}
