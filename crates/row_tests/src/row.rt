//! What a row is.

use serde_json::Value;

/// A row: a JSON object whose members are read where they are used. It has a `name`. The program is given its `words`
/// and the pieces of its `input`, must write the pieces of its `text`, and ends with its `status`, one of these
/// numbers.
///
/// Some rows say more. The text `begins` with these pieces; those `with` them stand somewhere in it. The `leaves` of a
/// bundle have so many states each. Each of the `prefixes` of the input, ended by a line feed, is an input of its own.
/// The source (`reads`) and the sink (`writes`) have these troubles. A member of another type counts as left out.
#[derive(Drop)]
pub(crate) struct Row<'r> {
    value: &'r Value,
}

/// The lists that each row has, besides its name.
const LISTS: [&str; 3] = ["words", "text", "status"];

impl<'r> Row<'r> {
    /// The row that a value is, if it has what each row has.
    pub(crate) fn of_value(value: &'r Value) -> Option<Row<'r>> {
        value.get("name")?.as_str()?;
        for member in LISTS {
            value.get(member)?.as_array()?;
        }
        Some(Row { value })
    }

    /// The items of a member, none if it is left out.
    pub(crate) fn items(&self, member: &str) -> &'r [Value] {
        match self.value.get(member).and_then(Value::as_array) {
            Some(items) => items.as_slice(),
            None => &[],
        }
    }

    /// The text of a member, empty if it is left out.
    pub(crate) fn text(&self, member: &str) -> &'r str {
        text_of(self.value.get(member))
    }

    /// Whether it asks for a compiled bundle.
    pub(crate) fn compiles(&self) -> bool {
        text_of(self.items("words").first()) == "compile"
            && number_of(self.items("status").first()) == 0
    }

    /// Whether a member says so.
    pub(crate) fn truth(&self, member: &str) -> bool {
        self.value
            .get(member)
            .and_then(Value::as_bool)
            .unwrap_or(false)
    }
}

/// The text that a value is, or an empty one.
pub(crate) fn text_of(value: Option<&Value>) -> &str {
    value.and_then(Value::as_str).unwrap_or("")
}

/// The number that a value is, or 0.
pub(crate) fn number_of(value: Option<&Value>) -> u64 {
    value.and_then(Value::as_u64).unwrap_or(0)
}
