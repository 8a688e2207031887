// What a call is given, as a row writes it. Where a row is at fault, there is something empty in place of a value.
ghost use Rattle.std.specs.Prelude.{◌≤◌, IfSome, length};

use crate::answer::Answer;
use crate::row::Row;
use cnb_world::{Bytes, List, Path, Text};

impl Answer {
    /// What is given under a name.
    pub fn given<'a>(&mut self, row: &'a Row, name: &str) -> &'a str {
        match row.given.get(name) {
            Some(text) => text.as_str(),
            None => {
                self.wrong("nothing is given as", name);
                ""
            }
        }
    }

    /// The number that a word is.
    pub fn number(&mut self, word: &str) -> u64 {
        match word.parse() {
            Ok(number) => number,
            Err(_) => {
                self.wrong("no number:", word);
                0
            }
        }
    }

    /// The numbers between spaces.
    pub fn numbers(&mut self, words: &str) -> List<u64> {
        let mut numbers = List::new(self.alloc);
        for word in words.split_whitespace() {
            let number = self.number(word);
            self.done(numbers.push(number));
        }
        numbers
    }

    /// The path that a text is, which has at most 4,096 bytes.
    pub fn path(&mut self, text: &str) -> Option<Path>
        ensures { IfSome result (λ path. length path ≤ 4096) }
    {
        match Path::parse_short(self.alloc, text) {
            Ok(path) => Some(path),
            Err(_) => {
                self.wrong("no short path:", text);
                None
            }
        }
    }

    /// A copy of a text.
    pub fn text(&mut self, text: &str) -> Text {
        match Text::of(self.alloc, text) {
            Ok(text) => text,
            Err(_) => {
                self.run_out();
                Text::from_string(String::new(self.alloc))
            }
        }
    }

    /// A copy of bytes.
    pub fn bytes(&mut self, bytes: &[u8]) -> Bytes {
        let mut copy = Bytes::from_vec(Vec::new(self.alloc));
        self.done(copy.append(bytes));
        copy
    }
}
