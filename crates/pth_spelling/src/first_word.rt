//! The words that begin lines, read.

ghost use Rattle.std.specs.Prelude.{◌≡◌};
ghost use Rattle.pth_spelling.specs.Keywords.{call_word, entry_word, keyword_of, new_event_word, plain_word};
ghost use Rattle.pth_spelling.specs.Syntax.{syntax_of};

use crate::keyword::{
    AttributeWord, BarrierWord, CallWord, CancellationWord, CleanupWord, ConditionWord, EntryWord,
    EventWord, IoWord, KeyStorageWord, Keyword, LibraryWord, MutexWord, NewEventWord, PortWord,
    RwlockWord, ThreadWord, UtilityWord,
};
use crate::named::named;

/// The word of each call, in rows that another macro makes something of.
macro_rules! calls {
    ($rows:ident $($given:tt)*) => {
        $rows! {
            [$($given)*]
            "kill" => Library(LibraryWord::Kill),
            "ctrl" => Library(LibraryWord::Ctrl),
            "attr_new" => Attributes(AttributeWord::New),
            "attr_of" => Attributes(AttributeWord::Of),
            "attr_init" => Attributes(AttributeWord::Init),
            "attr_set" => Attributes(AttributeWord::Set),
            "attr_get" => Attributes(AttributeWord::Get),
            "attr_destroy" => Attributes(AttributeWord::Destroy),
            "spawn" => Threads(ThreadWord::Spawn),
            "once" => Threads(ThreadWord::Once),
            "self" => Threads(ThreadWord::SelfTid),
            "suspend" => Threads(ThreadWord::Suspend),
            "resume" => Threads(ThreadWord::Resume),
            "yield" => Threads(ThreadWord::Yield),
            "nap" => Threads(ThreadWord::Nap),
            "wait" => Threads(ThreadWord::Wait),
            "cancel" => Threads(ThreadWord::Cancel),
            "abort" => Threads(ThreadWord::Abort),
            "join" => Threads(ThreadWord::Join),
            "exit" => Threads(ThreadWord::Exit),
            "fdmode" => Utilities(UtilityWord::Fdmode),
            "timeout" => Utilities(UtilityWord::Timeout),
            "cancel_point" => Cancellation(CancellationWord::Point),
            "cancel_state" => Cancellation(CancellationWord::State),
            "ev_fd" => Events(EventWord::New(NewEventWord::Fd)),
            "ev_select" => Events(EventWord::New(NewEventWord::Select)),
            "ev_time" => Events(EventWord::New(NewEventWord::Time)),
            "ev_msg" => Events(EventWord::New(NewEventWord::Msg)),
            "ev_cond" => Events(EventWord::New(NewEventWord::Cond)),
            "ev_tid" => Events(EventWord::New(NewEventWord::Tid)),
            "ev_func" => Events(EventWord::New(NewEventWord::Func)),
            "chain" => Events(EventWord::Chain),
            "ev_concat" => Events(EventWord::Concat),
            "ev_isolate" => Events(EventWord::Isolate),
            "ev_walk" => Events(EventWord::Walk),
            "ev_status" => Events(EventWord::Status),
            "ev_kind" => Events(EventWord::Kind),
            "ev_free" => Events(EventWord::Free),
            "key_create" => Keys(KeyStorageWord::Create),
            "key_delete" => Keys(KeyStorageWord::Delete),
            "key_set" => Keys(KeyStorageWord::Set),
            "key_get" => Keys(KeyStorageWord::Get),
            "port_create" => Ports(PortWord::Create),
            "port_find" => Ports(PortWord::Find),
            "port_pending" => Ports(PortWord::Pending),
            "port_put" => Ports(PortWord::Put),
            "port_get" => Ports(PortWord::Get),
            "reply" => Ports(PortWord::Reply),
            "port_destroy" => Ports(PortWord::Destroy),
            "cleanup_push" => Cleanups(CleanupWord::Push),
            "cleanup_pop" => Cleanups(CleanupWord::Pop),
            "mutex_init" => Mutexes(MutexWord::Init),
            "mutex_acquire" => Mutexes(MutexWord::Acquire),
            "mutex_release" => Mutexes(MutexWord::Release),
            "rw_init" => Rwlocks(RwlockWord::Init),
            "rw_acquire" => Rwlocks(RwlockWord::Acquire),
            "rw_release" => Rwlocks(RwlockWord::Release),
            "cond_init" => Conditions(ConditionWord::Init),
            "cond_await" => Conditions(ConditionWord::Await),
            "cond_notify" => Conditions(ConditionWord::Notify),
            "barrier_init" => Barriers(BarrierWord::Init),
            "barrier_reach" => Barriers(BarrierWord::Reach),
            "usleep" => Io(IoWord::Usleep),
            "sleep" => Io(IoWord::Sleep),
            "read" => Io(IoWord::Read),
            "read_ev" => Io(IoWord::ReadEv),
            "write" => Io(IoWord::Write),
            "write_ev" => Io(IoWord::WriteEv),
            "accept" => Io(IoWord::Accept),
            "accept_ev" => Io(IoWord::AcceptEv),
            "connect" => Io(IoWord::Connect),
            "connect_ev" => Io(IoWord::ConnectEv),
            "select" => Io(IoWord::Select),
            "select_ev" => Io(IoWord::SelectEv),
            "close" => Io(IoWord::Close),
        }
    };
}

macro_rules! table {
    ([] $($text:literal => $facility:ident($($word:tt)*),)*) => {
        [$(($text, CallWord::$facility($($word)*)),)*]
    };
}

macro_rules! text {
    ([$call:tt] $($text:literal => $facility:ident($($word:tt)*),)*) => {
        match $call {
            $(CallWord::$facility($($word)*) => $text,)*
        }
    };
}

static CALL_WORDS: [(&str, CallWord); 75] = calls!(table);

impl CallWord {
    /// How the word is spelled.
    #[inline(always)]
    pub fn text(self) -> &'static str
        ensures { result.now ≡ (syntax_of self).text }
    {
        calls!(text self)
    }
}

/// The call that a word names.
#[tactic(auto, unfolding(crate::specs::Keywords::call_word))]
pub fn call_word(word: &[u8]) -> Option<CallWord>
    ensures { result ≡ call_word word.now }
{
    named(&CALL_WORDS, word)
}

/// The kind of event that a word makes.
#[tactic(auto, unfolding(crate::specs::Keywords::new_event_word))]
pub fn new_event_word(word: &[u8]) -> Option<NewEventWord>
    ensures { result ≡ new_event_word word.now }
{
    match call_word(word)? {
        CallWord::Events(EventWord::New(kind)) => Some(kind),
        _ => None,
    }
}

static ENTRY_WORDS: [(&str, EntryWord); 8] = [
    ("in", EntryWord::In),
    ("eof", EntryWord::Eof),
    ("room", EntryWord::Room),
    ("conn", EntryWord::Conn),
    ("up", EntryWord::Up),
    ("refuse", EntryWord::Refuse),
    ("exc", EntryWord::Exc),
    ("err", EntryWord::Err),
];

/// What comes to a descriptor, as a word names it.
#[tactic(auto, unfolding(crate::specs::Keywords::entry_word))]
pub fn entry_word(word: &[u8]) -> Option<EntryWord>
    ensures { result ≡ entry_word word.now }
{
    named(&ENTRY_WORDS, word)
}

static PLAIN_WORDS: [(&str, Keyword); 17] = [
    ("handler", Keyword::Handler),
    ("check", Keyword::Check),
    ("thread", Keyword::Thread),
    ("end", Keyword::End),
    ("note", Keyword::Note),
    ("set", Keyword::Set),
    ("add", Keyword::Add),
    ("label", Keyword::Label),
    ("goto", Keyword::Goto),
    ("release", Keyword::Release),
    ("notify", Keyword::Notify),
    ("put", Keyword::Put),
    ("setkey", Keyword::SetKey),
    ("kernel", Keyword::Kernel),
    ("clock", Keyword::Clock),
    ("open", Keyword::Open),
    ("at", Keyword::At),
];

/// The word of a line that makes no call.
#[tactic(auto, unfolding(crate::specs::Keywords::plain_word))]
fn plain_word(word: &[u8]) -> Option<Keyword>
    ensures { result ≡ plain_word word.now }
{
    named(&PLAIN_WORDS, word)
}

/// What a word begins.
#[tactic(auto, unfolding(crate::specs::Keywords::keyword_of))]
pub fn keyword(word: &[u8]) -> Option<Keyword>
    ensures { result ≡ keyword_of word.now }
{
    if let Some(k) = plain_word(word) {
        Some(k)
    } else {
        Some(Keyword::Call(call_word(word)?))
    }
}
