//! Why a text is no scenario.

use and_capture::Bytes;

/// Why a text is no scenario: the first check that fails, and the path of the value where it fails.
/// A path is `/` and a field name, or `/script/`, the item's number from 0, and for a field `/` and its name; it is empty for the whole value.
#[derive(Drop)]
pub enum ScenarioFault {
    /// The bytes are not read as JSON.
    NotJson,
    /// A value is missing or of the wrong kind.
    Field { path: Bytes },
    /// An object has a field that it may not have, or an item's `do` is no command.
    Unknown { path: Bytes },
    /// A value is outside its form.
    Range { path: Bytes },
    /// The script is too long.
    Limit { path: Bytes },
    /// Memory was wanted and not there.
    NoMemory,
}
