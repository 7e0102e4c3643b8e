//! The words of one line.
ghost use Rattle.std.specs.Prelude.{◌≡◌, ◌<◌, ◌≤◌, ◌↔◌, ℕ, List, [], ◌∷◌, length, map, slice_index, string_bytes, true, false, IfOk, IfErr, IsTrue, OnOk, IsErrOf, Some, None};
ghost use Rattle.std.specs.Cow.{cow_str_bytes};
ghost use Rattle.script.specs.{Words.IsCut, Words.IsLine, Machine.class_of as byte_class, Machine.is_plain, Machine.step_at, Machine.gives, declared.words.LineError.TheVariants.NoMemory};

use std::alloc::{AllocError, AllocFailed, Global};
use std::borrow::CowStr;
use std::mem;
use thiserror::Error;

/// Why a line gave no words.
#[derive(Clone, Copy, PartialEq, Eq, Debug, Error)]
pub enum LineError {
    #[error("no memory")]
    NoMemory,
    #[error("the line is of no known form")]
    BadLine,
}

impl From<AllocError> for LineError {
    ghost from_gives = { λ _ e. e ≡ NoMemory };

    fn from(_error: AllocError) -> LineError {
        LineError::NoMemory
    }
}

impl<T: Drop> From<AllocFailed<T>> for LineError {
    ghost from_gives = { λ _ e. e ≡ NoMemory };

    fn from(_error: AllocFailed<T>) -> LineError {
        LineError::NoMemory
    }
}

// What a byte may be in a line.
#[derive(Clone, Copy)]
enum ByteClass {
    Space,
    Mark,
    Backslash,
    Plain,
    Other,
}

impl ByteClass {
    fn of(byte: u8) -> ByteClass
        ensures { result ≡ byte_class byte }
    {
        match byte {
            b' ' => ByteClass::Space,
            b'"' => ByteClass::Mark,
            b'\\' => ByteClass::Backslash,
            0x21..=0x7e => ByteClass::Plain,
            _ => ByteClass::Other,
        }
    }
}

// Whether a byte is plain.
fn is_plain(byte: u8) -> bool
    ensures { result ≡ is_plain byte }
{
    matches!(ByteClass::of(byte), ByteClass::Plain)
}

// How many plain bytes stand in front of the first other.
fn plain_length(bytes: &[u8]) -> usize
    ensures within { result ≤ length bytes.now }
    ensures plain { (k : ℕ) → k < result → is_plain (slice_index bytes.now k) ≡ true }
    ensures found { result < length bytes.now → is_plain (slice_index bytes.now result) ≡ false }
{
    bytes
        .iter()
        .position(|byte| !is_plain(*byte))
        .unwrap_or(bytes.len())
}

// Whether a word ends in front of the bytes: there are none, or a space comes first.
fn is_cut(bytes: &[u8]) -> bool
    ensures { IsTrue result ↔ IsCut bytes.now }
{
    matches!(bytes, [] | [b' ', ..])
}

// Plain bytes as a text.
#[tactic(auto, using(crate::proofs::Scan::plain_text))]
fn text_of(plain: &[u8]) -> &str
    requires { (k : ℕ) → k < length plain.now → is_plain (slice_index plain.now k) ≡ true }
    ensures { result.now ≡ plain.now }
{
    str::from_utf8(plain).unwrap_or("")
}

// Where a reader stands: between words, in a bare word, between quotation marks, behind a
// backslash there, or right behind the second mark.
#[derive(Clone, Copy)]
enum Place {
    Between,
    Bare,
    Quoted,
    Escaped,
    Closed,
}

// What a byte does: it only moves the reader, it is a byte of the word, it ends the word, or it
// may not stand there.
enum Step {
    Go(Place),
    Keep(Place),
    End(Place),
    Fault,
}

impl Place {
    fn step(self, class: ByteClass) -> Step
        ensures { result ≡ step_at self class }
    {
        match (self, class) {
            (Place::Between, ByteClass::Space) => Step::Go(Place::Between),
            (Place::Between, ByteClass::Mark) => Step::Go(Place::Quoted),
            (Place::Between, ByteClass::Plain) => Step::Keep(Place::Bare),
            (Place::Bare, ByteClass::Space) => Step::End(Place::Between),
            (Place::Bare, ByteClass::Plain) => Step::Keep(Place::Bare),
            (Place::Quoted, ByteClass::Mark) => Step::End(Place::Closed),
            (Place::Quoted, ByteClass::Backslash) => Step::Go(Place::Escaped),
            (Place::Quoted, ByteClass::Space | ByteClass::Plain) => Step::Keep(Place::Quoted),
            (Place::Escaped, ByteClass::Mark | ByteClass::Backslash) => Step::Keep(Place::Quoted),
            (Place::Closed, ByteClass::Space) => Step::Go(Place::Between),
            _ => Step::Fault,
        }
    }
}

// The words so far, and the front of the next.
#[derive(Drop)]
struct Reader<'t> {
    place: Place,
    word: String,
    words: Vec<CowStr<'t>>,
}

impl<'t> Reader<'t> {
    fn new(alloc: Global) -> Reader<'t>
        ensures place { result.place ≡ Place.Between }
        ensures word { string_bytes result.word ≡ [] }
        ensures words { result.words.items ≡ [] }
    {
        Reader {
            place: Place::Between,
            word: String::new(alloc),
            words: Vec::new(alloc),
        }
    }

    // Whether a word may begin.
    fn is_between(&self) -> bool
        ensures { IsTrue result ↔ (self.now.place ≡ Place.Between)
            × (string_bytes self.now.word ≡ []) }
    {
        match self.place {
            Place::Between => self.word.is_empty(),
            _ => false,
        }
    }

    // Takes a bare word in front, where a word may begin, and gives what is behind it. It is not
    // copied. One that no cut follows is left to `take`, which refuses the byte behind it.
    fn take_bare(&mut self, bytes: &'t [u8]) -> Result<&'t [u8], LineError>
        ensures rest { IfOk result (λ rest. gives self.new rest.now ≡ gives self.old bytes.now) }
        ensures shorter { IfOk result (λ rest. length rest.now ≤ length bytes.now) }
        ensures only { IfErr result (λ e. e ≡ NoMemory) }
    {
        if !self.is_between() {
            return Ok(bytes);
        }
        let length = plain_length(bytes);
        if length == 0 {
            return Ok(bytes);
        }
        let (word, rest) = bytes.split_at(length);
        if !is_cut(rest) {
            return Ok(bytes);
        }
        self.words.push(CowStr::Borrowed(text_of(word)))?;
        Ok(rest)
    }

    fn take(&mut self, alloc: Global, byte: u8) -> Result<(), LineError>
        ensures ok { OnOk result ((bytes : List ℕ) → gives self.new bytes
            ≡ gives self.old (byte ∷ bytes)) }
        ensures fault { IsErrOf result LineError.BadLine → (bytes : List ℕ)
            → gives self.old (byte ∷ bytes) ≡ None }
    {
        match self.place.step(ByteClass::of(byte)) {
            Step::Go(place) => self.place = place,
            Step::Keep(place) => {
                self.word.push(byte as char)?;
                self.place = place;
            }
            Step::End(place) => {
                let word = mem::replace(&mut self.word, String::new(alloc));
                self.words.push(CowStr::Owned(word))?;
                self.place = place;
            }
            Step::Fault => return Err(LineError::BadLine),
        }
        Ok(())
    }

    fn finish(self) -> Result<Vec<CowStr<'t>>, LineError>
        ensures ok { IfOk result (λ words. gives self.entry []
            ≡ Some (map cow_str_bytes words.items)) }
        ensures fault { IsErrOf result LineError.BadLine → gives self.entry [] ≡ None }
    {
        let Reader {
            place,
            word,
            mut words,
        } = self;
        match place {
            Place::Between | Place::Closed => Ok(words),
            Place::Bare => {
                words.push(CowStr::Owned(word))?;
                Ok(words)
            }
            Place::Quoted | Place::Escaped => Err(LineError::BadLine),
        }
    }
}

/// The words of a line, in order, each by its content. `BadLine`: the line has no words in any
/// reading; else only memory is refused. Cost: a look at each byte. A bare word is not copied.
#[tactic(auto, using(crate::proofs::Scan::front_nil))]
pub fn words<'t>(alloc: Global, line: &'t [u8]) -> Result<Vec<CowStr<'t>>, LineError>
    ensures ok { IfOk result (λ found. IsLine line.now (map cow_str_bytes found.items)) }
    ensures only { IfOk result (λ found. (others : List (List ℕ)) → IsLine line.now others → others
        ≡ map cow_str_bytes found.items) }
    ensures fault { IsErrOf result LineError.BadLine → (others : List (List ℕ))
        → IsLine line.now others → ⊥ }
{
    let mut reader = Reader::new(alloc);
    let mut rest = reader.take_bare(line)?;
    while let [byte, more @ ..] = rest {
        reader.take(alloc, *byte)?;
        rest = reader.take_bare(more)?;
    }
    reader.finish()
}
