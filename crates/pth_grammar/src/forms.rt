//! The words that must follow the first word of a line.

ghost use Rattle.std.specs.Prelude.{◌≡◌, ◌∷◌, option_map};
ghost use Rattle.pth_grammar.specs.Forms.{act_forms, body_forms, call_forms, event_forms, forms_of, may_open, opening_forms, query_forms, value_forms};
ghost use Rattle.pth_spelling.specs.Syntax.{barrier_syntax, cancellation_syntax, cleanup_syntax, condition_syntax, io_syntax, key_syntax, mutex_syntax, new_event_syntax, port_syntax, rwlock_syntax, thread_syntax, utility_syntax};
ghost use Rattle.pth_spelling.specs.declared.form.Form.TheVariants as form;
ghost use Rattle.pth_spelling.specs.declared.keyword.AttributeWord.TheVariants as attributes;
ghost use Rattle.pth_spelling.specs.declared.keyword.CallWord.TheVariants as calls;
ghost use Rattle.pth_spelling.specs.declared.keyword.EventWord.TheVariants as events;
ghost use Rattle.pth_spelling.specs.declared.keyword.LibraryWord.TheVariants as libraries;
ghost use Rattle.pth_spelling.specs.Texts.{texts};

use crate::kernel_forms::kernel_forms;
use crate::section::Section;
use pth_base::attr::AttrField;
use pth_spelling::first_word::new_event_word;
use pth_spelling::form::Form;
use pth_spelling::keyword::{
    AttributeWord, BarrierWord, CallWord, CancellationWord, CleanupWord, ConditionWord, EventWord,
    IoWord, KeyStorageWord, Keyword, LibraryWord, MutexWord, NewEventWord, PortWord, QueryWord,
    RwlockWord, ThreadWord, UtilityWord,
};
use pth_spelling::words::{field, query};

fn query_forms(query: Option<QueryWord>) -> &'static [Form]
    ensures { result.now ≡ form.Query ∷ query_forms query }
{
    match query {
        Some(QueryWord::Favournew) => &[Form::Query, Form::Operand],
        Some(QueryWord::Prio) => &[Form::Query, Form::Operand],
        Some(QueryWord::Name) => &[Form::Query, Form::Operand],
        _ => &[Form::Query],
    }
}

fn ctrl_forms(words: &[&[u8]]) -> &'static [Form]
    ensures { result.now ≡ call_forms (calls.Library libraries.Ctrl) (texts words.now) }
{
    match words {
        [] => &[Form::Query],
        [q, ..] => query_forms(query(q)),
    }
}

fn field_forms(field: Option<AttrField>) -> &'static [Form]
    ensures { result.now ≡ form.Operand ∷ form.Field ∷ value_forms field }
{
    match field {
        Some(AttrField::Name) => &[Form::Operand, Form::Field, Form::Name],
        _ => &[Form::Operand, Form::Field, Form::Operand],
    }
}

fn set_forms(words: &[&[u8]]) -> &'static [Form]
    ensures { result.now ≡ call_forms (calls.Attributes attributes.Set) (texts words.now) }
{
    match words {
        [_, f, ..] => field_forms(field(f)),
        _ => &[Form::Operand, Form::Field, Form::Operand],
    }
}

fn library_forms(word: LibraryWord, words: &[&[u8]]) -> &'static [Form]
    ensures { result.now ≡ call_forms (calls.Library word) (texts words.now) }
{
    match word {
        LibraryWord::Kill => &[],
        LibraryWord::Ctrl => ctrl_forms(words),
    }
}

fn attribute_forms(word: AttributeWord, words: &[&[u8]]) -> &'static [Form]
    ensures { result.now ≡ call_forms (calls.Attributes word) (texts words.now) }
{
    match word {
        AttributeWord::New => &[],
        AttributeWord::Of => &[Form::Operand],
        AttributeWord::Init => &[Form::Operand],
        AttributeWord::Set => set_forms(words),
        AttributeWord::Get => &[Form::Operand, Form::Field],
        AttributeWord::Destroy => &[Form::Operand],
    }
}

fn thread_forms(word: ThreadWord) -> &'static [Form]
    ensures { result.now ≡ (thread_syntax word).forms }
{
    match word {
        ThreadWord::Spawn => &[Form::Operand, Form::Operand, Form::Operand],
        ThreadWord::Once => &[Form::Operand, Form::Operand, Form::Operand],
        ThreadWord::SelfTid => &[],
        ThreadWord::Suspend => &[Form::Operand],
        ThreadWord::Resume => &[Form::Operand],
        ThreadWord::Yield => &[Form::Operand],
        ThreadWord::Nap => &[Form::Operand],
        ThreadWord::Wait => &[Form::Operand],
        ThreadWord::Cancel => &[Form::Operand],
        ThreadWord::Abort => &[Form::Operand],
        ThreadWord::Join => &[Form::Operand],
        ThreadWord::Exit => &[Form::Operand],
    }
}

fn utility_forms(word: UtilityWord) -> &'static [Form]
    ensures { result.now ≡ (utility_syntax word).forms }
{
    match word {
        UtilityWord::Fdmode => &[Form::Operand, Form::Operand],
        UtilityWord::Timeout => &[Form::Operand],
    }
}

fn cancellation_forms(word: CancellationWord) -> &'static [Form]
    ensures { result.now ≡ (cancellation_syntax word).forms }
{
    match word {
        CancellationWord::Point => &[],
        CancellationWord::State => &[Form::Operand],
    }
}

fn new_event_forms(word: NewEventWord) -> &'static [Form]
    ensures { result.now ≡ (new_event_syntax word).forms }
{
    match word {
        NewEventWord::Fd => &[Form::Goals, Form::Operand],
        NewEventWord::Select => &[Form::Set, Form::Set, Form::Set],
        NewEventWord::Time => &[Form::Operand],
        NewEventWord::Msg => &[Form::Operand],
        NewEventWord::Cond => &[Form::Operand],
        NewEventWord::Tid => &[Form::State, Form::Operand],
        NewEventWord::Func => &[Form::Operand, Form::Operand, Form::Operand],
    }
}

fn chained_forms(event: Option<NewEventWord>) -> &'static [Form]
    ensures { result.now ≡ form.Operand ∷ form.Event ∷ event_forms event }
{
    match event {
        None => &[Form::Operand, Form::Event],
        Some(NewEventWord::Fd) => &[Form::Operand, Form::Event, Form::Goals, Form::Operand],
        Some(NewEventWord::Select) => &[
            Form::Operand,
            Form::Event,
            Form::Set,
            Form::Set,
            Form::Set,
        ],
        Some(NewEventWord::Time) => &[Form::Operand, Form::Event, Form::Operand],
        Some(NewEventWord::Msg) => &[Form::Operand, Form::Event, Form::Operand],
        Some(NewEventWord::Cond) => &[Form::Operand, Form::Event, Form::Operand],
        Some(NewEventWord::Tid) => &[Form::Operand, Form::Event, Form::State, Form::Operand],
        Some(NewEventWord::Func) => &[
            Form::Operand,
            Form::Event,
            Form::Operand,
            Form::Operand,
            Form::Operand,
        ],
    }
}

fn chain_forms(words: &[&[u8]]) -> &'static [Form]
    ensures { result.now ≡ call_forms (calls.Events events.Chain) (texts words.now) }
{
    match words {
        [_, word, ..] => chained_forms(new_event_word(word)),
        _ => &[Form::Operand, Form::Event],
    }
}

fn event_forms(word: EventWord, words: &[&[u8]]) -> &'static [Form]
    ensures { result.now ≡ call_forms (calls.Events word) (texts words.now) }
{
    match word {
        EventWord::New(word) => new_event_forms(word),
        EventWord::Chain => chain_forms(words),
        EventWord::Concat => &[Form::Operand, Form::Operand],
        EventWord::Isolate => &[Form::Operand],
        EventWord::Walk => &[Form::Operand, Form::Direction],
        EventWord::Status => &[Form::Operand],
        EventWord::Kind => &[Form::Operand],
        EventWord::Free => &[Form::Operand, Form::Which],
    }
}

fn key_forms(word: KeyStorageWord) -> &'static [Form]
    ensures { result.now ≡ (key_syntax word).forms }
{
    match word {
        KeyStorageWord::Create => &[Form::MaybeOperand],
        KeyStorageWord::Delete => &[Form::Operand],
        KeyStorageWord::Set => &[Form::Operand, Form::Operand],
        KeyStorageWord::Get => &[Form::Operand],
    }
}

fn port_forms(word: PortWord) -> &'static [Form]
    ensures { result.now ≡ (port_syntax word).forms }
{
    match word {
        PortWord::Create => &[Form::MaybeName],
        PortWord::Find => &[Form::Name],
        PortWord::Pending => &[Form::Operand],
        PortWord::Put => &[Form::Operand, Form::Operand, Form::Operand],
        PortWord::Get => &[Form::Operand],
        PortWord::Reply => &[Form::Operand],
        PortWord::Destroy => &[Form::Operand],
    }
}

fn cleanup_forms(word: CleanupWord) -> &'static [Form]
    ensures { result.now ≡ (cleanup_syntax word).forms }
{
    match word {
        CleanupWord::Push => &[Form::Operand, Form::Operand],
        CleanupWord::Pop => &[Form::Operand],
    }
}

fn mutex_forms(word: MutexWord) -> &'static [Form]
    ensures { result.now ≡ (mutex_syntax word).forms }
{
    match word {
        MutexWord::Init => &[Form::Operand],
        MutexWord::Acquire => &[Form::Operand, Form::Operand, Form::Operand],
        MutexWord::Release => &[Form::Operand],
    }
}

fn rwlock_forms(word: RwlockWord) -> &'static [Form]
    ensures { result.now ≡ (rwlock_syntax word).forms }
{
    match word {
        RwlockWord::Init => &[Form::Operand],
        RwlockWord::Acquire => &[Form::Operand, Form::Mode, Form::Operand, Form::Operand],
        RwlockWord::Release => &[Form::Operand],
    }
}

fn condition_forms(word: ConditionWord) -> &'static [Form]
    ensures { result.now ≡ (condition_syntax word).forms }
{
    match word {
        ConditionWord::Init => &[Form::Operand],
        ConditionWord::Await => &[Form::Operand, Form::Operand, Form::Operand],
        ConditionWord::Notify => &[Form::Operand, Form::Operand],
    }
}

fn barrier_forms(word: BarrierWord) -> &'static [Form]
    ensures { result.now ≡ (barrier_syntax word).forms }
{
    match word {
        BarrierWord::Init => &[Form::Operand, Form::Operand],
        BarrierWord::Reach => &[Form::Operand],
    }
}

fn io_forms(word: IoWord) -> &'static [Form]
    ensures { result.now ≡ (io_syntax word).forms }
{
    match word {
        IoWord::Usleep => &[Form::Operand],
        IoWord::Sleep => &[Form::Operand],
        IoWord::Read => &[Form::Operand, Form::Operand],
        IoWord::ReadEv => &[Form::Operand, Form::Operand, Form::Operand],
        IoWord::Write => &[Form::Operand, Form::Bytes],
        IoWord::WriteEv => &[Form::Operand, Form::Bytes, Form::Operand],
        IoWord::Accept => &[Form::Operand],
        IoWord::AcceptEv => &[Form::Operand, Form::Operand],
        IoWord::Connect => &[Form::Operand],
        IoWord::ConnectEv => &[Form::Operand, Form::Operand],
        IoWord::Select => &[Form::Set, Form::Set, Form::Set, Form::Operand],
        IoWord::SelectEv => &[
            Form::Set,
            Form::Set,
            Form::Set,
            Form::Operand,
            Form::Operand,
        ],
        IoWord::Close => &[Form::Operand],
    }
}

/// The forms of the words after that of a call.
pub fn call_forms(word: CallWord, words: &[&[u8]]) -> &'static [Form]
    ensures { result.now ≡ call_forms word (texts words.now) }
{
    match word {
        CallWord::Library(word) => library_forms(word, words),
        CallWord::Attributes(word) => attribute_forms(word, words),
        CallWord::Threads(word) => thread_forms(word),
        CallWord::Utilities(word) => utility_forms(word),
        CallWord::Cancellation(word) => cancellation_forms(word),
        CallWord::Events(word) => event_forms(word, words),
        CallWord::Keys(word) => key_forms(word),
        CallWord::Ports(word) => port_forms(word),
        CallWord::Cleanups(word) => cleanup_forms(word),
        CallWord::Mutexes(word) => mutex_forms(word),
        CallWord::Rwlocks(word) => rwlock_forms(word),
        CallWord::Conditions(word) => condition_forms(word),
        CallWord::Barriers(word) => barrier_forms(word),
        CallWord::Io(word) => io_forms(word),
    }
}

fn act_forms(keyword: Keyword) -> Option<&'static [Form]>
    ensures { option_map (λ f. f.now) result ≡ act_forms keyword }
{
    match keyword {
        Keyword::End => Some(&[]),
        Keyword::Note => Some(&[Form::Value]),
        Keyword::Set => Some(&[Form::Shared, Form::Value]),
        Keyword::Release => Some(&[Form::Value]),
        Keyword::Notify => Some(&[Form::Value, Form::Value]),
        Keyword::Put => Some(&[Form::Value, Form::Value]),
        Keyword::SetKey => Some(&[Form::Value, Form::Value]),
        _ => None,
    }
}

fn body_forms(keyword: Keyword, words: &[&[u8]]) -> Option<&'static [Form]>
    ensures { option_map (λ f. f.now) result ≡ body_forms keyword (texts words.now) }
{
    match keyword {
        Keyword::End => Some(&[]),
        Keyword::Set => Some(&[Form::Register, Form::Operand]),
        Keyword::Add => Some(&[Form::Register, Form::Operand]),
        Keyword::Note => Some(&[Form::Operand]),
        Keyword::Label => Some(&[Form::Natural]),
        Keyword::Goto => Some(&[Form::Natural, Form::Operand, Form::Relation, Form::Operand]),
        Keyword::Call(word) => Some(call_forms(word, words)),
        _ => None,
    }
}

fn opening_forms(keyword: Keyword) -> Option<&'static [Form]>
    ensures { option_map (λ f. f.now) result ≡ opening_forms keyword }
{
    match keyword {
        Keyword::Handler => Some(&[Form::Natural]),
        Keyword::Check => Some(&[Form::Natural, Form::Value, Form::Relation, Form::Value]),
        Keyword::Thread => Some(&[Form::Natural]),
        Keyword::Kernel => Some(&[]),
        _ => None,
    }
}

fn may_open(section: Section, keyword: Keyword) -> Option<&'static [Form]>
    ensures { option_map (λ f. f.now) result ≡ may_open section keyword }
{
    match (section, keyword) {
        (Section::Handlers, keyword) => opening_forms(keyword),
        (Section::Checks, Keyword::Check) => opening_forms(keyword),
        (Section::Checks, Keyword::Thread) => opening_forms(keyword),
        (Section::Checks, Keyword::Kernel) => opening_forms(keyword),
        (Section::Bodies, Keyword::Thread) => opening_forms(keyword),
        (Section::Bodies, Keyword::Kernel) => opening_forms(keyword),
        _ => None,
    }
}

/// The forms of the words after a keyword, or none where it may not begin a line of the section.
pub fn forms_of(section: Section, keyword: Keyword, words: &[&[u8]]) -> Option<&'static [Form]>
    ensures { option_map (λ f. f.now) result ≡ forms_of section keyword (texts words.now) }
{
    match section {
        Section::Handler => act_forms(keyword),
        Section::Body => body_forms(keyword, words),
        Section::Kernel(part) => kernel_forms(part, keyword, words),
        _ => may_open(section, keyword),
    }
}
