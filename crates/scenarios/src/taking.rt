// What is taken from rows and from files.
use cnb_world::{FileFault, List, Path};
use row_files::{Answer, Fields, RowFault};
use toml::{Table, Value};

/// The path that a text is.
pub fn path_of(answer: &mut Answer, text: &str) -> Option<Path> {
    match Path::parse(answer.alloc, text) {
        Ok(path) => Some(path),
        Err(_) => {
            answer.wrong("no path:", text);
            None
        }
    }
}

/// What a call on files found.
pub(crate) fn found<T: Drop>(answer: &mut Answer, found: Result<T, FileFault>) -> Option<T> {
    match found {
        Ok(found) => Some(found),
        Err(FileFault::Failed) => {
            fail_files(answer);
            None
        }
        Err(FileFault::Memory) => {
            answer.run_out();
            None
        }
    }
}

/// The files could not be looked at.
pub(crate) fn fail_files(answer: &mut Answer) {
    match String::from_str(answer.alloc, "the files could not be looked at") {
        Ok(text) => answer.fail(RowFault::Wrong(text)),
        Err(_) => answer.run_out(),
    }
}

/// The table under a key.
pub(crate) fn table<'a>(row: Fields<'a>, key: &str) -> Option<&'a Table> {
    row.value.get(key)?.as_table()
}

/// Numbers, none of them below 0, and one more.
pub(crate) fn numbers(answer: &mut Answer, values: &[Value], more: Option<u64>) -> List<u64> {
    let mut numbers = List::new(answer.alloc);
    for value in values {
        let number = value.as_integer().unwrap_or(0);
        answer.done(numbers.push(u64::try_from(number).unwrap_or(0)));
    }
    if let Some(number) = more {
        answer.done(numbers.push(number));
    }
    numbers
}
