//! Where a text of TOML names what: the text is read once more, octet by octet. It is TOML already, so that the
//! rules here are those of strings, brackets and comments alone.

use crate::found::Found;
use crate::quote::{After, Quoted};
use crate::step::Step;
use rsl_wire::NoMemory;
use std::alloc::Global;
use std::collections::BTreeMap;
use std::str;
use toml_parser::{Key, ParseError, dotted_key};

/// Finds the lines of what was found in the text of its file.
pub(crate) fn find_lines(
    alloc: Global,
    text: &[u8],
    found: &mut Vec<Found>,
) -> Result<(), NoMemory> {
    let mut outline = Outline::new(alloc);
    for octet in text {
        outline.take(*octet, found)?;
    }
    Ok(())
}

/// What is being read.
#[derive(Clone, Copy)]
enum Mode {
    /// A key, or what stands before it.
    Key,
    /// A header, after its first bracket.
    Header,
    /// A value, or what stands beside it.
    Value,
    /// A string of a value.
    Text(Quoted),
    /// A comment; after it a key, or a value.
    Comment(bool),
}

/// A list or a table in braces within a value.
#[derive(Clone, Copy)]
struct Nest {
    /// Whether it is a list.
    is_list: bool,
    /// How many steps lead to it.
    steps: usize,
    /// The index of the item of a list.
    index: usize,
    /// Whether that item has begun.
    has_begun: bool,
}

/// The walk over a text.
#[derive(Drop)]
struct Outline {
    alloc: Global,
    line: u64,
    mode: Mode,
    /// The octets of the key or the header that is being read.
    raw: Vec<u8>,
    /// The string of that key that is open.
    quoted: Option<Quoted>,
    /// Whether the header has two brackets.
    is_double: bool,
    /// The steps to what is being read.
    way: Vec<Step>,
    /// How many of them are those of the last header.
    base: usize,
    /// The list or table that is open.
    nest: Option<Nest>,
    /// Those that it is in.
    outer: Vec<Nest>,
    /// How many tables each list of tables has so far.
    tables: BTreeMap<String, usize>,
}

impl Outline {
    /// At the front of a text.
    fn new(alloc: Global) -> Outline {
        Outline {
            alloc,
            line: 1,
            mode: Mode::Key,
            raw: Vec::new(alloc),
            quoted: None,
            is_double: false,
            way: Vec::new(alloc),
            base: 0,
            nest: None,
            outer: Vec::new(alloc),
            tables: BTreeMap::new(alloc),
        }
    }

    /// Takes the next octet.
    fn take(&mut self, octet: u8, found: &mut Vec<Found>) -> Result<(), NoMemory> {
        if let Mode::Comment(of_key) = self.mode {
            if octet != b'\n' {
                return Ok(());
            }
            self.mode = if of_key { Mode::Key } else { Mode::Value };
        }
        match self.mode {
            Mode::Header => self.in_header(octet, found)?,
            Mode::Value => self.in_value(octet, found)?,
            Mode::Text(quoted) => self.in_text(quoted, octet, found)?,
            Mode::Key | Mode::Comment(_) => self.in_key(octet, found)?,
        }
        if octet == b'\n' {
            self.line = self.line.saturating_add(1);
        }
        Ok(())
    }

    /// Takes note of what is being read for all that is looked for.
    fn note(&self, found: &mut Vec<Found>) {
        for one in found.as_mut_slice() {
            one.at.note(self.way.as_slice(), self.line);
            if let Some(first) = &mut one.first {
                first.note(self.way.as_slice(), self.line);
            }
        }
    }

    /// Takes an octet of a key, or before one.
    fn in_key(&mut self, octet: u8, found: &mut Vec<Found>) -> Result<(), NoMemory> {
        if self.in_quoted(octet)? {
            return Ok(());
        }
        let is_first = self.raw.is_empty();
        match octet {
            b'=' => self.end_key(found),
            b'#' if is_first => {
                self.mode = Mode::Comment(true);
                Ok(())
            }
            b'[' if is_first && self.nest.is_none() => {
                self.mode = Mode::Header;
                self.is_double = false;
                Ok(())
            }
            b'}' if is_first => {
                self.close();
                Ok(())
            }
            b' ' | b'\t' | b'\r' | b'\n' | b',' if is_first => Ok(()),
            _ => self.push(octet),
        }
    }

    /// Takes an octet of a header.
    fn in_header(&mut self, octet: u8, found: &mut Vec<Found>) -> Result<(), NoMemory> {
        if self.in_quoted(octet)? {
            return Ok(());
        }
        match octet {
            b'[' if self.raw.is_empty() => {
                self.is_double = true;
                Ok(())
            }
            b']' => self.end_header(found),
            _ => self.push(octet),
        }
    }

    /// Takes an octet of a string of a key. Whether it was one.
    fn in_quoted(&mut self, octet: u8) -> Result<bool, NoMemory> {
        let Some(quoted) = self.quoted else {
            return Ok(false);
        };
        self.raw.push(octet)?;
        self.quoted = match quoted.after(octet) {
            After::Open(quoted) => Some(quoted),
            After::Closed | After::ClosedBefore => None,
        };
        Ok(true)
    }

    /// Keeps an octet of a key, which may open a string.
    fn push(&mut self, octet: u8) -> Result<(), NoMemory> {
        self.raw.push(octet)?;
        if matches!(octet, b'"' | b'\'') {
            self.quoted = Some(Quoted::short(octet));
        }
        Ok(())
    }

    /// The steps of the key that was read.
    fn steps(&mut self) -> Result<Vec<Step>, NoMemory> {
        let mut steps = Vec::new(self.alloc);
        if let Ok(text) = str::from_utf8(self.raw.as_slice()) {
            match dotted_key(self.alloc, text.trim()) {
                Ok((Key { path, last }, _)) => {
                    for part in path {
                        steps.push(Step::Key(part))?;
                    }
                    steps.push(Step::Key(last))?;
                }
                Err(ParseError::OutOfMemory) => return Err(NoMemory),
                Err(_) => {}
            }
        }
        self.raw.clear();
        Ok(steps)
    }

    /// Ends a key: its value follows.
    fn end_key(&mut self, found: &mut Vec<Found>) -> Result<(), NoMemory> {
        let steps = self.steps()?;
        for step in steps {
            self.way.push(step)?;
        }
        self.mode = Mode::Value;
        self.note(found);
        Ok(())
    }

    /// Ends a header: what follows is of its table.
    fn end_header(&mut self, found: &mut Vec<Found>) -> Result<(), NoMemory> {
        let steps = self.steps()?;
        let is_list = self.is_double && steps.len() == 1;
        self.way.clear();
        for step in steps {
            let is_first = self.way.is_empty();
            let index = if is_first {
                self.index_of(&step, is_list)?
            } else {
                None
            };
            self.way.push(step)?;
            self.note(found);
            if let Some(index) = index {
                self.way.push(Step::Item(index))?;
                self.note(found);
            }
        }
        self.base = self.way.len();
        self.mode = Mode::Value;
        Ok(())
    }

    /// The index of the table of a list of tables that a header begins, or goes on with.
    fn index_of(&mut self, step: &Step, is_list: bool) -> Result<Option<usize>, NoMemory> {
        let Step::Key(name) = step else {
            return Ok(None);
        };
        let last = match self.tables.get(name.as_str()) {
            Some(last) => Some(*last),
            None => None,
        };
        if !is_list {
            return Ok(last);
        }
        let index = match last {
            Some(last) => last.saturating_add(1),
            None => 0,
        };
        let name = String::from_str(self.alloc, name.as_str())?;
        self.tables.insert(name, index)?;
        Ok(Some(index))
    }

    /// Takes an octet of a value, or beside one.
    fn in_value(&mut self, octet: u8, found: &mut Vec<Found>) -> Result<(), NoMemory> {
        match octet {
            b' ' | b'\t' | b'\r' => {}
            b'\n' => self.end_line(),
            b'#' => self.mode = Mode::Comment(false),
            b',' => self.go_on(),
            b']' | b'}' => self.close(),
            b'"' | b'\'' => {
                self.begin(found)?;
                self.mode = Mode::Text(Quoted::opened(octet));
            }
            b'[' => self.open(true, found)?,
            b'{' => {
                self.open(false, found)?;
                self.mode = Mode::Key;
            }
            _ => self.begin(found)?,
        }
        Ok(())
    }

    /// Takes an octet of a string.
    fn in_text(
        &mut self,
        quoted: Quoted,
        octet: u8,
        found: &mut Vec<Found>,
    ) -> Result<(), NoMemory> {
        self.mode = Mode::Value;
        match quoted.after(octet) {
            After::Open(quoted) => self.mode = Mode::Text(quoted),
            After::Closed => {}
            After::ClosedBefore => self.in_value(octet, found)?,
        }
        Ok(())
    }

    /// Opens a list, or a table in braces.
    fn open(&mut self, is_list: bool, found: &mut Vec<Found>) -> Result<(), NoMemory> {
        self.begin(found)?;
        if let Some(nest) = self.nest {
            self.outer.push(nest)?;
        }
        self.nest = Some(Nest {
            is_list,
            steps: self.way.len(),
            index: 0,
            has_begun: false,
        });
        Ok(())
    }

    /// Begins the item of a list, unless it has begun.
    fn begin(&mut self, found: &mut Vec<Found>) -> Result<(), NoMemory> {
        let Some(nest) = self.nest else {
            return Ok(());
        };
        if nest.is_list && !nest.has_begun {
            self.nest = Some(Nest {
                has_begun: true,
                ..nest
            });
            self.way.truncate(nest.steps);
            self.way.push(Step::Item(nest.index))?;
            self.note(found);
        }
        Ok(())
    }

    /// Ends an item of a list, or a value of a table in braces.
    fn go_on(&mut self) {
        let Some(nest) = self.nest else {
            return;
        };
        self.way.truncate(nest.steps);
        if nest.is_list {
            self.nest = Some(Nest {
                index: nest.index.saturating_add(1),
                has_begun: false,
                ..nest
            });
        } else {
            self.mode = Mode::Key;
        }
    }

    /// Ends a list or a table in braces.
    fn close(&mut self) {
        self.nest = self.outer.pop();
        self.mode = Mode::Value;
    }

    /// Ends a line, and with it a value that is not in brackets.
    fn end_line(&mut self) {
        if self.nest.is_none() {
            self.way.truncate(self.base);
            self.mode = Mode::Key;
        }
    }
}
