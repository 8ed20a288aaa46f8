//! Files of cases: what was read of one so far.

use crate::case::{Answer, Case, Named, Writes, find, text_of};
use crate::line::{Line, Span};
use std::alloc::{AllocError, Global};
use std::mem;
use uc_term::Text;

/// What the text that is being read is for.
#[derive(Drop)]
enum Purpose {
    Nothing,
    /// To have this name.
    Text(Text),
    /// To stand in the file of this name.
    File(Text),
    /// To be the next word.
    Word,
    /// To be written.
    Answer,
    /// To be put into the file of this name, in the place of another text.
    Change(Text),
}

/// What was read of a file of cases: the named texts, the files of the library, the case that is being read, and the text that is
/// being read, with the one in whose place it is to be put. A call that answers false has found what has no meaning there.
#[derive(Drop)]
pub struct Sheet {
    texts: Vec<Named>,
    library: Vec<Named>,
    case: Option<Case>,
    purpose: Purpose,
    text: Text,
    old: Text,
}

impl Sheet {
    /// Nothing was read.
    pub fn new(alloc: Global) -> Sheet {
        Sheet {
            texts: Vec::new(alloc),
            library: Vec::new(alloc),
            case: None,
            purpose: Purpose::Nothing,
            text: Text::new(alloc),
            old: Text::new(alloc),
        }
    }

    /// The files that the library holds.
    pub fn library(&self) -> &[Named] {
        &self.library
    }

    /// Has the library hold a file.
    pub fn hold(&mut self, name: Text, text: Text) -> Result<(), AllocError> {
        self.library.push((name, text))?;
        Ok(())
    }

    /// Takes the case that was read, if there is one.
    pub fn take_case(&mut self) -> Option<Case> {
        self.case.take()
    }

    /// Reads a line.
    pub fn read(&mut self, alloc: Global, line: &Line) -> Result<bool, AllocError> {
        match *line {
            Line::Nothing => {}
            Line::Piece(piece) => piece.put(alloc, &mut self.text)?,
            Line::Named(name) => return self.put_named(name),
            Line::Old(part) => put_line(&mut self.old, part)?,
            Line::New(part) => put_line(&mut self.text, part)?,
            Line::Word(word, rest) => return Ok(
                self.close(alloc)? && self.begin(alloc, word, rest)?,
            ),
            Line::Unread => return Ok(false),
        }
        Ok(true)
    }

    // Puts the text of this name at the end of the one that is being read.
    fn put_named(&mut self, name: &str) -> Result<bool, AllocError> {
        match find(&self.texts, name.as_bytes()) {
            Some(text) => {
                self.text.extend(text.as_bytes())?;
                Ok(true)
            }
            None => Ok(false),
        }
    }

    /// Puts the text that was read where it is for.
    pub fn close(&mut self, alloc: Global) -> Result<bool, AllocError> {
        let text = mem::replace(&mut self.text, Text::new(alloc));
        let old = mem::replace(&mut self.old, Text::new(alloc));
        match mem::replace(&mut self.purpose, Purpose::Nothing) {
            Purpose::Nothing => Ok(text.is_empty() && old.is_empty()),
            Purpose::Text(name) => add(&mut self.texts, name, text),
            Purpose::File(name) => add(self.files(), name, text),
            Purpose::Word => self.add_word(alloc, &text),
            Purpose::Answer => Ok(self.set_answer(text)),
            Purpose::Change(name) => self.change(alloc, name, &old, &text),
        }
    }

    // The files to which one is added: those of the case, or else those of the library.
    fn files(&mut self) -> &mut Vec<Named> {
        match &mut self.case {
            Some(case) => &mut case.files,
            None => &mut self.library,
        }
    }

    fn add_word(&mut self, alloc: Global, text: &Text) -> Result<bool, AllocError> {
        let (Some(case), Ok(word)) = (&mut self.case, str::from_utf8(text.as_bytes())) else {
            return Ok(false);
        };
        case.words.push(String::from_str(alloc, word)?)?;
        Ok(true)
    }

    fn set_answer(&mut self, text: Text) -> bool {
        match &mut self.case {
            Some(case) => {
                case.answer = Answer::Text(text);
                true
            }
            None => false,
        }
    }

    // Gives the case a file of this name with the first place of a part replaced.
    fn change(
        &mut self,
        alloc: Global,
        name: Text,
        old: &Text,
        new: &Text,
    ) -> Result<bool, AllocError> {
        let Some(case) = &mut self.case else {
            return Ok(false);
        };
        let whole = find(&case.files, name.as_bytes()).or(find(&self.library, name.as_bytes()));
        let Some(whole) = whole else {
            return Ok(false);
        };
        match changed(alloc, whole, old, new)? {
            Some(text) => add(&mut case.files, name, text),
            None => Ok(false),
        }
    }

    // Begins what the word says.
    fn begin(&mut self, alloc: Global, word: &str, rest: &str) -> Result<bool, AllocError> {
        match word.as_bytes() {
            b"library" => self.library.clear(),
            b"text" => self.purpose = Purpose::Text(text_of(alloc, rest)?),
            b"file" => self.purpose = Purpose::File(text_of(alloc, rest)?),
            b"run" => self.case = Some(Case::new(alloc, words_of(alloc, rest)?)),
            _ => return self.say(alloc, word, rest),
        }
        Ok(true)
    }

    // Says something of the case.
    fn say(&mut self, alloc: Global, word: &str, rest: &str) -> Result<bool, AllocError> {
        let Some(case) = &mut self.case else {
            return Ok(false);
        };
        match word.as_bytes() {
            b"word" => {
                self.text.extend(rest.as_bytes())?;
                self.purpose = Purpose::Word;
            }
            b"change" => self.purpose = Purpose::Change(text_of(alloc, rest)?),
            b"status" => {
                case.status = rest.parse::<u8>().ok();
                self.purpose = Purpose::Answer;
                return Ok(case.status.is_some());
            }
            b"keep" => case.answer = Answer::Kept(text_of(alloc, rest)?),
            b"fails" => return fail(alloc, case, rest),
            b"room" => return Ok(set_room(case, rest)),
            b"cut" => return cut(alloc, case, rest),
            _ => return Ok(false),
        }
        Ok(true)
    }
}

fn add(texts: &mut Vec<Named>, name: Text, text: Text) -> Result<bool, AllocError> {
    texts.push((name, text))?;
    Ok(true)
}

// Puts a line at the end of others, without its line feed.
fn put_line(out: &mut Text, line: &str) -> Result<(), AllocError> {
    if !out.is_empty() {
        out.push(b'\n')?;
    }
    out.extend(line.as_bytes())
}

fn words_of(alloc: Global, rest: &str) -> Result<Vec<String>, AllocError> {
    let mut words = Vec::new(alloc);
    for word in rest.split_whitespace() {
        words.push(String::from_str(alloc, word)?)?;
    }
    Ok(words)
}

// Reads which calls of a case fail: `fetch NUMBER..`, `write NUMBER..` or `each write`.
fn fail(alloc: Global, case: &mut Case, rest: &str) -> Result<bool, AllocError> {
    let (call, numbers) = rest.split_once(' ').unwrap_or((rest, ""));
    match call.as_bytes() {
        b"fetch" => case.fetches = numbers_of(alloc, numbers)?,
        b"write" => case.writes = Writes::Listed(numbers_of(alloc, numbers)?),
        b"each" => case.writes = Writes::Each,
        _ => return Ok(false),
    }
    Ok(true)
}

// The numbers among the words.
fn numbers_of(alloc: Global, words: &str) -> Result<Vec<u32>, AllocError> {
    let mut numbers = Vec::new(alloc);
    for word in words.split_whitespace() {
        if let Ok(number) = word.parse::<u32>() {
            numbers.push(number)?;
        }
    }
    Ok(numbers)
}

fn set_room(case: &mut Case, rest: &str) -> bool {
    match rest.parse::<usize>() {
        Ok(room) => {
            case.room = room;
            true
        }
        Err(_) => false,
    }
}

// Reads how a file is cut: `NAME FROM-TO`.
fn cut(alloc: Global, case: &mut Case, rest: &str) -> Result<bool, AllocError> {
    let Some((name, span)) = rest.split_once(' ') else {
        return Ok(false);
    };
    case.cut = match Span::of(span) {
        Some(span) => Some((text_of(alloc, name)?, span)),
        None => None,
    };
    Ok(case.cut.is_some())
}

// The text with the first place of a part replaced by another text; none where it has no such part.
fn changed(
    alloc: Global,
    whole: &Text,
    part: &Text,
    other: &Text,
) -> Result<Option<Text>, AllocError> {
    let (Ok(whole), Ok(part)) = (
        str::from_utf8(whole.as_bytes()),
        str::from_utf8(part.as_bytes()),
    ) else {
        return Ok(None);
    };
    let Some((front, back)) = whole.split_once(part) else {
        return Ok(None);
    };
    let mut changed = text_of(alloc, front)?;
    changed.extend(other.as_bytes())?;
    changed.extend(back.as_bytes())?;
    Ok(Some(changed))
}
