//! A JSON object in a line of its own.

use json::Writer;
use std::alloc::{AllocError, Global};

/// A JSON object that is being written. Once memory runs out, nothing more is added, and `line` fails.
#[derive(Drop)]
pub struct Object {
    writer: Writer<Global>,
    outcome: Result<(), AllocError>,
}

impl Object {
    /// An object whose first member says which record it is.
    pub fn new(alloc: Global, record: &str) -> Object {
        let mut object = Object {
            writer: Writer::new(Vec::new(alloc)),
            outcome: Ok(()),
        };
        object.open();
        object.text("record", record);
        object
    }

    fn key(&mut self, key: &str) {
        if self.outcome.is_ok() {
            self.outcome = self.writer.key(key);
        }
    }

    fn string(&mut self, text: &str) {
        if self.outcome.is_ok() {
            self.outcome = self.writer.string(text);
        }
    }

    fn u64(&mut self, number: u64) {
        if self.outcome.is_ok() {
            self.outcome = self.writer.u64(number);
        }
    }

    fn null(&mut self) {
        if self.outcome.is_ok() {
            self.outcome = self.writer.null();
        }
    }

    /// Adds a text.
    pub fn text(&mut self, key: &str, text: &str) {
        self.key(key);
        self.string(text);
    }

    /// Adds a number.
    pub fn number(&mut self, key: &str, number: u64) {
        self.key(key);
        self.u64(number);
    }

    /// Adds a number, or `null` if there is none.
    pub fn perhaps(&mut self, key: &str, number: Option<u64>) {
        self.key(key);
        match number {
            None => self.null(),
            Some(number) => self.u64(number),
        }
    }

    /// Adds `true` or `false`.
    pub fn boolean(&mut self, key: &str, value: bool) {
        self.key(key);
        if self.outcome.is_ok() {
            self.outcome = self.writer.boolean(value);
        }
    }

    /// Adds an array of texts.
    pub fn texts(&mut self, key: &str, texts: &[String]) {
        self.begin(key);
        for text in texts {
            self.string(text.as_str());
        }
        self.end();
    }

    /// Adds the number of a line, and an array of its rounds.
    pub fn place(&mut self, line: usize, rounds: &[u32]) {
        self.number("line", line as u64);
        self.begin("rounds");
        for round in rounds {
            self.u64(u64::from(*round));
        }
        self.end();
    }

    /// Begins an array of objects. Each of them begins with `open` and ends with `close`.
    pub fn begin(&mut self, key: &str) {
        self.key(key);
        if self.outcome.is_ok() {
            self.outcome = self.writer.begin_array();
        }
    }

    /// Ends the array.
    pub fn end(&mut self) {
        if self.outcome.is_ok() {
            self.outcome = self.writer.end_array();
        }
    }

    /// Begins an object of the array. Its members are added like those of the whole object.
    pub fn open(&mut self) {
        if self.outcome.is_ok() {
            self.outcome = self.writer.begin_object();
        }
    }

    /// Ends it.
    pub fn close(&mut self) {
        if self.outcome.is_ok() {
            self.outcome = self.writer.end_object();
        }
    }

    /// The whole object, with the end of its line.
    pub fn line(mut self) -> Result<Vec<u8>, AllocError> {
        self.close();
        let Object { writer, outcome } = self;
        outcome?;
        let mut bytes = writer.into_inner();
        bytes.push(b'\n')?;
        Ok(bytes)
    }
}
