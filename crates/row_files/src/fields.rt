// What the keys of a table hold.
use std::alloc::{AllocError, Global};
use toml::Value;

/// A table that was read by its form. What is absent has no text and no number, isn't set, and is an empty list.
#[derive(Clone, Copy)]
pub struct Fields<'a> {
    pub value: &'a Value,
}

/// The text that a value is.
pub fn text_of(value: &Value) -> &str {
    value.as_str().unwrap_or("")
}

impl<'a> Fields<'a> {
    pub fn has(self, key: &str) -> bool {
        self.value.get(key).is_some()
    }

    pub fn text(self, key: &str) -> Option<&'a str> {
        self.value.get(key)?.as_str()
    }

    pub fn text_or_empty(self, key: &str) -> &'a str {
        self.text(key).unwrap_or("")
    }

    pub fn is_set(self, key: &str) -> bool {
        matches!(self.value.get(key), Some(Value::Boolean(true)))
    }

    pub fn number(self, key: &str) -> Option<i64> {
        self.value.get(key)?.as_integer()
    }

    /// The table under a key.
    pub fn fields(self, key: &str) -> Option<Fields<'a>> {
        let value = self.value.get(key)?;
        Some(Fields { value })
    }

    /// The values of a list.
    pub fn list(self, key: &str) -> &'a [Value] {
        match self.value.get(key) {
            Some(Value::Array(values)) => values,
            _ => &[],
        }
    }

    /// The numbers of a list, of which none is below 0.
    pub fn numbers(self, alloc: Global, key: &str) -> Result<Vec<u64>, AllocError> {
        let mut numbers = Vec::new(alloc);
        for value in self.list(key) {
            if let Value::Integer(number) = value {
                numbers.push(u64::try_from(*number).unwrap_or(0))?;
            }
        }
        Ok(numbers)
    }

    /// The names and values of the table under a key, ascending.
    pub fn members(
        self,
        alloc: Global,
        key: &str,
    ) -> Result<Vec<(&'a str, &'a Value)>, AllocError> {
        let mut members = Vec::new(alloc);
        if let Some(Value::Table(table)) = self.value.get(key) {
            for (name, value) in table {
                members.push((name.as_str(), value))?;
            }
        }
        Ok(members)
    }
}
