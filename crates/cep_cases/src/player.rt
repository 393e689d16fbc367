// Runs cases.
use crate::command::{put_written, status, words_of};
use cep_case_texts::{Draft, NO_MEMORY, Name, Outcome, Section, Series, Texts, number_of, tell};
use cep_fakes::{MemConsole, MemShelf};
use std::alloc::Global;

// How many calls of the console fail after one that failed. A run that makes one more is found out by the first of them.
const FURTHER_CALLS: u64 = 8;

/// A case: the words of the command, what is typed, and which calls of the console and which load of the shelf fail.
#[derive(Drop)]
struct Case {
    words: Vec<String>,
    typed: Draft,
    calls: Vec<u64>,
    load: Option<u64>,
}

impl Case {
    // No words and nothing typed, and nothing fails.
    fn new(alloc: Global) -> Case {
        Case {
            words: Vec::new(alloc),
            typed: Draft::new(alloc),
            calls: Vec::new(alloc),
            load: None,
        }
    }
}

/// What runs cases: the case that is run, the texts that have names, the files on the shelf, which stay there from one case of a file to
/// the next, and what came of the cases.
#[derive(Drop)]
pub struct Player {
    alloc: Global,
    texts: Texts,
    shelf: MemShelf,
    case: Case,
    most: u64,
    told: Draft,
}

impl Player {
    /// No text has a name yet, and nothing is on the shelf.
    pub fn new(alloc: Global) -> Player {
        Player {
            alloc,
            texts: Texts::new(alloc),
            shelf: MemShelf::new(alloc),
            case: Case::new(alloc),
            most: 0,
            told: Draft::new(alloc),
        }
    }

    /// What came of the cases of the last file. It failed if a case could not be run: the first one of which nothing was told.
    pub fn told(&self) -> &Draft {
        &self.told
    }

    /// Runs the cases of a file, with an empty shelf at first. Of an output at most so many bytes are written out. Before the first case
    /// may stand sections too. Each case begins with a line `== NAME` or `== NAME: WORDS`; the words are `play f` where none are said.
    pub fn run_file(&mut self, content: &str, most: &str) {
        self.shelf = MemShelf::new(self.alloc);
        self.told.clear();
        self.most = number_of(most, &mut self.told);
        let mut chunks = content.split("\n== ");
        if let Some(chunk) = chunks.next() {
            self.take_all(chunk);
        }
        for chunk in chunks {
            self.run_case(chunk);
        }
    }

    // Runs a case, which is these lines.
    fn run_case(&mut self, chunk: &str) {
        let (head, _) = chunk.split_once("\n-- ").unwrap_or((chunk, ""));
        let (lines, words) = head.split_once(':').unwrap_or((head, "play f"));
        let name = Name {
            lines,
            base: None,
            number: 0,
        };
        self.case = Case::new(self.alloc);
        self.take_words(words);
        match self.take_all(chunk) {
            Some(section) => self.run_each(name, section),
            None => self.run_one(name),
        }
    }

    // Takes the sections of these lines, and answers the last one if each of its lines is a case.
    fn take_all<'a>(&mut self, chunk: &'a str) -> Option<Section<'a>> {
        let mut each = None;
        for lines in chunk.split("\n-- ").skip(1) {
            let section = Section::of(lines);
            each = if section.each {
                Some(section)
            } else {
                let text = section.text(&self.texts);
                self.set(section.target, text);
                None
            };
        }
        each
    }

    // Takes the words of a line.
    fn take_words(&mut self, line: &str) {
        match words_of(self.alloc, line) {
            Ok(words) => self.case.words = words,
            Err(_) => self.told.fail(NO_MEMORY),
        }
    }

    // Puts a text where it belongs: it is typed, says what fails, has a name, or is a file.
    fn set(&mut self, target: &str, text: Draft) {
        self.told.fail_with(&text);
        match target {
            "typed" => self.case.typed = text,
            "failing call" => {
                let call = self.number_in(text.bytes());
                self.fail_calls(call, 0);
            }
            "failing load" => self.case.load = Some(self.number_in(text.bytes())),
            _ => self.keep(target, text),
        }
    }

    // The number that a text says.
    fn number_in(&mut self, text: &[u8]) -> u64 {
        number_of(
            str::from_utf8(text).unwrap_or("").trim_end(),
            &mut self.told,
        )
    }

    // Keeps a text that has a name, or is a file and has the name of it.
    fn keep(&mut self, target: &str, text: Draft) {
        let name = target.strip_prefix("text ");
        if name.is_none() {
            self.put_file(target, text.bytes());
        }
        self.name_text(name.unwrap_or(target), text);
    }

    // Puts a file on the shelf.
    fn put_file(&mut self, name: &str, text: &[u8]) {
        if self.shelf.file(name, text).is_err() {
            self.told.fail(NO_MEMORY);
        }
    }

    // Gives a text a name.
    fn name_text(&mut self, name: &str, text: Draft) {
        if self.texts.keep(name, text).is_err() {
            self.told.fail(NO_MEMORY);
        }
    }

    // Lets the call of the console of this number fail and so many after it, and no other.
    fn fail_calls(&mut self, call: u64, further: u64) {
        self.case.calls.clear();
        for later in 0..=further {
            if self.case.calls.push(call.saturating_add(later)).is_err() {
                self.told.fail(NO_MEMORY);
            }
        }
    }

    // Runs a case for each line of the section. They are counted from 1, for each text that they change.
    fn run_each(&mut self, name: Name, section: Section) {
        if section.target == "failing call" && section.body.is_empty() {
            return self.run_failing(name);
        }
        let Some(bases) = section.base else {
            return self.run_lines(name, section, &[]);
        };
        for base in bases.split(" and ") {
            self.run_base(name, section, base);
        }
    }

    // The same for the text of this name.
    fn run_base(&mut self, name: Name, section: Section, base: &str) {
        let mut text = Draft::new(self.alloc);
        self.texts.put(base, &mut text);
        self.told.fail_with(&text);
        let base = Some(base);
        match section.target.strip_prefix("cut ") {
            Some(file) => self.run_cuts(name, file, text.bytes()),
            None => self.run_lines(Name { base, ..name }, section, text.bytes()),
        }
    }

    // Runs a case for each line of the section, where it changes this text if it changes one.
    fn run_lines(&mut self, name: Name, section: Section, base: &[u8]) {
        let mut number = 0u64;
        for line in section.body.split('\n') {
            number = number.saturating_add(1);
            self.take_line(section, base, line);
            self.run_one(Name { number, ..name });
        }
    }

    // Takes what a line of the section says of the case.
    fn take_line(&mut self, section: Section, base: &[u8], line: &str) {
        if section.target == "words" {
            return self.take_words(line);
        }
        let text = section.text_of_line(&self.texts, base, line);
        self.set(section.target, text);
    }

    // Runs the command, tells what came of it, and keeps what it said under the name `said`.
    fn run_one(&mut self, name: Name) {
        let outcome = self.outcome();
        tell(
            self.alloc,
            name,
            &outcome,
            self.shelf.asked(),
            self.most,
            &mut self.told,
        );
        self.name_text("said", outcome.said);
    }

    // How the command ends.
    fn outcome(&mut self) -> Outcome {
        self.begin();
        let case = &self.case;
        match MemConsole::new(self.alloc, case.typed.bytes(), &case.calls) {
            Ok(console) => self.outcome_on(console),
            Err(_) => {
                self.told.fail(NO_MEMORY);
                Outcome {
                    status: 0,
                    said: Draft::new(self.alloc),
                }
            }
        }
    }

    // How the command ends on this console.
    fn outcome_on(&mut self, mut console: MemConsole) -> Outcome {
        let mut said = Draft::new(self.alloc);
        let status = status(self.alloc, &self.case.words, &mut console, &mut self.shelf);
        put_written(console.talk(), &mut said);
        Outcome { status, said }
    }

    // Lets the load of the case fail, if one does.
    fn begin(&mut self) {
        self.shelf.begin();
        if let Some(load) = self.case.load {
            if self.shelf.fail(load).is_err() {
                self.told.fail(NO_MEMORY);
            }
        }
    }

    // Runs the case with one call of the console after another failing, up to one that the run does not make: alone, and with those
    // after it, which comes to the same if and only if the run makes none after it.
    fn run_failing(&mut self, name: Name) {
        let mut series = self.begin_series(name);
        for call in 1..100_000 {
            self.run_both(call, &mut series);
            if series.is_whole() {
                break;
            }
        }
    }

    // Runs the case with this call of the console failing, alone, and with those after it.
    fn run_both(&mut self, call: u64, series: &mut Series) {
        self.fail_calls(call, 0);
        let alone = self.outcome();
        self.fail_calls(call, FURTHER_CALLS);
        series.tell_both(call, &alone, &self.outcome(), &mut self.told);
    }

    // Runs the case with each beginning of a text as this file.
    fn run_cuts(&mut self, name: Name, file: &str, text: &[u8]) {
        self.put_file(file, text);
        let mut series = self.begin_series(name);
        for length in 0..=text.len() {
            self.put_file(file, text.get(..length).unwrap_or(text));
            series.tell(length as u64, &self.outcome(), &mut self.told);
        }
    }

    // Begins to tell of a series, where the whole run stands first.
    fn begin_series(&mut self, name: Name) -> Series {
        name.put(&mut self.told);
        self.told.put(b":\n");
        Series::new(self.outcome())
    }
}
